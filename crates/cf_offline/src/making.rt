//! A made chain, written to a block file.
ghost use Rattle.std.specs.Prelude.{◌≡◌, ◌≢◌, Some};
ghost use Rattle.cf_bytes.specs.{IsAtMostWritten, HasRisen};
ghost use Rattle.cf_offline.specs.Making.{IsMaking};

use cf_answers::Status;
use cf_bytes::{FileFail, Files, Refused};
use cf_headers::HEIGHT_LIMIT;
use cf_make::made_records;
use std::alloc::Global;

/// Makes the chain of so many blocks that a seed tells, and writes its records to a file, their coinbases with a
/// witness or without. More blocks than a chain may have, 500,000, for which no words ask, are refused as for want of
/// memory.
///
/// The answer is `Done` where the file was written, and `NoNonce` with the lowest height at which none of the nonces
/// from 0 to 65,535 serves; `FileFault` comes where the file can't be written. But for `Done` no file has changed.
pub fn make<F: Files>(
    alloc: Global,
    files: &mut F,
    witness: bool,
    seed: u32,
    blocks: u32,
    file: &str,
) -> Status
    ensures made { IsMaking result witness seed blocks file.now (F.files files.old) (F.files files.new) }
    ensures file_fault { result ≡ Status.FileFault → HasRisen (F.faults files.old) (F.faults files.new) }
    ensures file_fine { result ≢ Status.FileFault → F.faults files.new ≡ F.faults files.old }
    ensures files { IsAtMostWritten F.writes (Some file.now) files.old files.new }
{
    if blocks > HEIGHT_LIMIT {
        return Status::NoMemory;
    }
    let records = match made_records(alloc, witness, u64::from(seed), blocks) {
        Ok(records) => records,
        Err(Refused::No(at)) => return Status::NoNonce { height: at.height },
        Err(Refused::NoMemory) => return Status::NoMemory,
    };
    match files.write(alloc, file, &records) {
        Ok(()) => Status::Done,
        Err(FileFail::NoMemory) => Status::NoMemory,
        Err(_) => Status::FileFault,
    }
}
