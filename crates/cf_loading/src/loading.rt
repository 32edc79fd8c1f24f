//! Files, read and judged.
ghost use Rattle.std.specs.Prelude.{◌≡◌, ◌≤◌, ℕ, List, true, length, IfOk, IfErr, IfSome, IsErrOf, OnOk, Ok, Some, string_bytes};
ghost use Rattle.std.specs.FinMap as finite;
ghost use Rattle.std.specs.List.{list_all};
ghost use Rattle.cf_bytes.specs.{IsRead, HasRisen};
ghost use Rattle.cf_chain.specs.{IsGoodChain};
ghost use Rattle.cf_conn.specs.{IsPartRead, IsReadByParts};
ghost use Rattle.cf_conn.specs.Steps.{Steps};
ghost use Rattle.cf_walk.specs.{blocks_at, CountsLoad, ReadsAs};
ghost use Rattle.cf_input.specs.{proof_file_of, session_of, script_in, AreNamed, watch_of};
ghost use Rattle.cf_wires.specs.{is_real};
ghost use Rattle.cf_loading.specs.Scanning.{IsScanOf, TellsScan};
ghost use Rattle.cf_loading.specs.Verdicts.{CountsFile, IsReadAs, IsUnloaded, IsUnread, IsOfFile, watch_verdict, session_verdict, blocks_verdict, proof_verdict};

use crate::scanning::scan_source;
use cf_answers::{FileCause, Status, Which};
use cf_bytes::{FileFail, Files, Refused};
use cf_conn::Opened;
use cf_index::{CheckedChain, read_source};
use cf_input::{Proven, Session, read_proof_file, read_session, read_watch};
use cf_scan::Watch;
use cf_walk::{LoadFault, MOST_BLOCKS};
use std::alloc::Global;

/// The most bytes that a watch file may have.
pub const MOST_WATCH: usize = 33_554_432;

/// The most bytes that a session file may have.
pub const MOST_SESSION: usize = 1_073_741_824;

/// The most bytes that the file of a proof may have.
pub const MOST_PROOF: usize = 4_000_000;

// The answer to a file that can't be read.
fn unread(fail: FileFail, which: Which) -> Status
    ensures { IsUnread which fail result }
{
    match fail {
        FileFail::Failed => Status::FileFault,
        FileFail::TooBig => Status::BadFile {
            which,
            place: 0,
            cause: FileCause::TooBig,
        },
        FileFail::NoMemory => Status::NoMemory,
    }
}

/// Reads the scripts that are watched, of the watch file of this name (`read_watch`). It is read whole, by one call.
///
/// # Errors
///
/// `BadFile` of the watch file where it has more than 33,554,432 bytes, at place 0, or else for its first line that is
/// refused, counted from 1. `FileFault` where there is no such file, or it can't be read.
#[tactic(auto, using(crate::proofs::Asking::is_read))]
pub fn load_watch<F: Files>(alloc: Global, files: &mut F, name: &str) -> Result<Watch, Status>
    ensures answer { IfSome (F.files files.old) (λ m. IsReadAs (watch_verdict (finite.get m name.now)) result) }
    ensures scripts { IfOk result
        (λ w. IfSome (F.files files.old) (λ m. IfSome (finite.get m name.now) (λ bytes. watch_of bytes ≡ Ok w))) }
    ensures same { F.files files.new ≡ F.files files.old }
    ensures fault { IsErrOf result Status.FileFault → HasRisen (F.faults files.old) (F.faults files.new) }
    ensures count { CountsFile result (F.faults files.old) (F.faults files.new) }
    ensures kept { OnOk result (F.faults files.new ≡ F.faults files.old) }
    ensures only { IfErr result IsOfFile }
    ensures files { IsRead F.reads name.now files.old files.new }
{
    match files.read(alloc, name, MOST_WATCH) {
        Ok(bytes) => match read_watch(alloc, &bytes) {
            Ok(watch) => Ok(watch),
            Err(Refused::No(fault)) => Err(Status::BadFile {
                which: Which::Watch,
                place: fault.place,
                cause: FileCause::Watch(fault.cause),
            }),
            Err(Refused::NoMemory) => Err(Status::NoMemory),
        },
        Err(fail) => Err(unread(fail, Which::Watch)),
    }
}

/// Reads the session of the session file of this name (`read_session`): the names of 1 to 8 dials, and what is
/// delivered. The file is read whole, by one call.
///
/// # Errors
///
/// `BadFile` of the session file where it has more than 1,073,741,824 bytes, at place 0, or else for its first line
/// that is refused, counted from 1. `FileFault` where there is no such file, or it can't be read.
#[tactic(auto, using(crate::proofs::Asking::is_read))]
pub fn load_session<F: Files>(alloc: Global, files: &mut F, name: &str) -> Result<Session, Status>
    ensures answer { IfSome (F.files files.old) (λ m. IsReadAs (session_verdict (finite.get m name.now)) result) }
    ensures script { IfOk result (λ s. IfSome (F.files files.old)
        (λ m. IfSome (finite.get m name.now) (λ bytes. session_of bytes ≡ Ok (script_in s)))) }
    ensures named { IfOk result AreNamed }
    ensures few { IfOk result (λ s. length s.dials.items ≤ 8) }
    ensures real { IfOk result (λ s. list_all is_real s.deliveries.items ≡ true) }
    ensures same { F.files files.new ≡ F.files files.old }
    ensures fault { IsErrOf result Status.FileFault → HasRisen (F.faults files.old) (F.faults files.new) }
    ensures count { CountsFile result (F.faults files.old) (F.faults files.new) }
    ensures only { IfErr result IsOfFile }
    ensures files { IsRead F.reads name.now files.old files.new }
{
    match files.read(alloc, name, MOST_SESSION) {
        Ok(bytes) => match read_session(alloc, &bytes) {
            Ok(session) => Ok(session),
            Err(Refused::No(fault)) => Err(Status::BadFile {
                which: Which::Session,
                place: fault.place,
                cause: FileCause::Session(fault.cause),
            }),
            Err(Refused::NoMemory) => Err(Status::NoMemory),
        },
        Err(fail) => Err(unread(fail, Which::Session)),
    }
}

// The answer where no chain was read from a file that was opened.
fn unloaded(fault: LoadFault) -> Status
    ensures { IsUnloaded fault result }
{
    match fault {
        LoadFault::BadBlock(bad) => Status::BadFile {
            which: Which::Blocks,
            place: bad.number,
            cause: FileCause::Blocks(bad.cause),
        },
        LoadFault::TooBig => unread(FileFail::TooBig, Which::Blocks),
        LoadFault::ReadFault => Status::FileFault,
        LoadFault::NoMemory => Status::NoMemory,
    }
}

// The chain of the blocks of a file that was opened.
fn read_opened<F: Files>(
    alloc: Global,
    source: &mut Opened<'_, F>,
) -> Result<CheckedChain, LoadFault>
    ensures reads { (bytes : List ℕ) → F.opened source.old.files.now ≡ Some bytes → ReadsAs bytes result }
    ensures good { IfOk result (λ b. IsGoodChain b) }
    ensures same_reference { source.new.files.ghost_name ≡ source.old.files.ghost_name }
    ensures same { F.files source.new.files.now ≡ F.files source.old.files.now }
    ensures count { CountsLoad result (F.faults source.old.files.now) (F.faults source.new.files.now) }
    ensures steps { Steps (IsPartRead F.parts) source.old.files.now source.new.files.now }
{
    read_source(alloc, source)
}

// The chain of the blocks of the file that was opened last.
fn chain_in<F: Files>(alloc: Global, files: &mut F) -> Result<CheckedChain, LoadFault>
    ensures reads { (bytes : List ℕ) → F.opened files.old ≡ Some bytes → ReadsAs bytes result }
    ensures good { IfOk result (λ b. IsGoodChain b) }
    ensures same { F.files files.new ≡ F.files files.old }
    ensures count { CountsLoad result (F.faults files.old) (F.faults files.new) }
    ensures steps { Steps (IsPartRead F.parts) files.old files.new }
{
    let mut source = Opened::new(files);
    read_opened(alloc, &mut source)
}

/// Reads the chain of the file of blocks of this name (`read_source`), and checks it. The file is opened by one call,
/// and then read by parts, up to its end or to the first record that is refused.
///
/// # Errors
///
/// `BadFile` of the file of blocks where it has more than 1,073,741,824 bytes, at place 0, or else for its first record
/// that is refused, counted from 1. `FileFault` where there is no such file, or it can't be read.
#[tactic(auto, using(crate::proofs::Asking::read_by_parts))]
pub fn load_chain<F: Files>(
    alloc: Global,
    files: &mut F,
    name: &str,
) -> Result<CheckedChain, Status>
    ensures answer { IfSome (F.files files.old) (λ m. IsReadAs (blocks_verdict (finite.get m name.now)) result) }
    ensures blocks { IfOk result
        (λ b. IfSome (F.files files.old) (λ m. IfSome (finite.get m name.now) (λ bytes. blocks_at bytes ≡ Ok b))) }
    ensures good { IfOk result (λ b. IsGoodChain b) }
    ensures same { F.files files.new ≡ F.files files.old }
    ensures fault { IsErrOf result Status.FileFault → HasRisen (F.faults files.old) (F.faults files.new) }
    ensures count { CountsFile result (F.faults files.old) (F.faults files.new) }
    ensures only { IfErr result IsOfFile }
    ensures files { IsReadByParts F.opens F.parts name.now files.old files.new }
{
    match files.open(name, MOST_BLOCKS) {
        Ok(()) => {}
        Err(fail) => return Err(unread(fail, Which::Blocks)),
    }
    match chain_in(alloc, files) {
        Ok(chain) => Ok(chain),
        Err(fault) => Err(unloaded(fault)),
    }
}

// The text of a scan of a file that was opened.
fn scan_opened<F: Files>(
    alloc: Global,
    source: &mut Opened<'_, F>,
    watch: &Watch,
) -> Result<String, LoadFault>
    ensures told { (bytes : List ℕ) → F.opened source.old.files.now ≡ Some bytes → TellsScan bytes watch.now result }
    ensures same_reference { source.new.files.ghost_name ≡ source.old.files.ghost_name }
    ensures same { F.files source.new.files.now ≡ F.files source.old.files.now }
    ensures count { CountsLoad result (F.faults source.old.files.now) (F.faults source.new.files.now) }
    ensures steps { Steps (IsPartRead F.parts) source.old.files.now source.new.files.now }
{
    scan_source(alloc, source, watch)
}

// The text of a scan of the file that was opened last.
fn scan_in<F: Files>(alloc: Global, files: &mut F, watch: &Watch) -> Result<String, LoadFault>
    ensures told { (bytes : List ℕ) → F.opened files.old ≡ Some bytes → TellsScan bytes watch.now result }
    ensures same { F.files files.new ≡ F.files files.old }
    ensures count { CountsLoad result (F.faults files.old) (F.faults files.new) }
    ensures steps { Steps (IsPartRead F.parts) files.old files.new }
{
    let mut source = Opened::new(files);
    scan_opened(alloc, &mut source, watch)
}

/// The text of a scan of the file of blocks of this name, which is read by parts, and checked: the history of the
/// watched scripts in it, and its tip. Of the blocks one is held at a time, and the text is made at the end.
///
/// # Errors
///
/// Those of `load_chain`.
#[tactic(auto, using(crate::proofs::Opening::scanned, crate::proofs::Asking::read_by_parts))]
pub fn scan_file<F: Files>(
    alloc: Global,
    files: &mut F,
    name: &str,
    watch: &Watch,
) -> Result<String, Status>
    ensures answer { IfSome (F.files files.old) (λ m. IsReadAs (blocks_verdict (finite.get m name.now)) result) }
    ensures text { IfOk result (λ t. IfSome (F.files files.old)
        (λ m. IfSome (finite.get m name.now) (λ bytes. IsScanOf bytes watch.now (string_bytes t)))) }
    ensures same { F.files files.new ≡ F.files files.old }
    ensures fault { IsErrOf result Status.FileFault → HasRisen (F.faults files.old) (F.faults files.new) }
    ensures count { CountsFile result (F.faults files.old) (F.faults files.new) }
    ensures only { IfErr result IsOfFile }
    ensures files { IsReadByParts F.opens F.parts name.now files.old files.new }
{
    match files.open(name, MOST_BLOCKS) {
        Ok(()) => {}
        Err(fail) => return Err(unread(fail, Which::Blocks)),
    }
    match scan_in(alloc, files, watch) {
        Ok(text) => Ok(text),
        Err(fault) => Err(unloaded(fault)),
    }
}

/// Reads what the file of a proof of this name proves (`read_proof_file`): the hashes of a transaction and of a block
/// in which it stands. The file is read whole, by one call.
///
/// # Errors
///
/// `BadFile` of the file of a proof where it has more than 4,000,000 bytes, at place 0, or else for its first line that
/// is refused, counted from 1. `FileFault` where there is no such file, or it can't be read.
#[tactic(auto, using(crate::proofs::Asking::is_read))]
pub fn load_proof<F: Files>(
    alloc: Global,
    files: &mut F,
    witness: bool,
    name: &str,
) -> Result<Proven, Status>
    ensures answer { IfSome (F.files files.old) (λ m. IsReadAs (proof_verdict witness (finite.get m name.now)) result) }
    ensures proven { IfOk result
        (λ p. IfSome (F.files files.old) (λ m. IfSome (finite.get m name.now) (λ bytes. proof_file_of witness bytes ≡ Ok p))) }
    ensures same { F.files files.new ≡ F.files files.old }
    ensures fault { IsErrOf result Status.FileFault → HasRisen (F.faults files.old) (F.faults files.new) }
    ensures count { CountsFile result (F.faults files.old) (F.faults files.new) }
    ensures only { IfErr result IsOfFile }
    ensures files { IsRead F.reads name.now files.old files.new }
{
    match files.read(alloc, name, MOST_PROOF) {
        Ok(bytes) => match read_proof_file(alloc, witness, &bytes) {
            Ok(proven) => Ok(proven),
            Err(Refused::No(fault)) => Err(Status::BadFile {
                which: Which::Proof,
                place: fault.place,
                cause: FileCause::Proof(fault.cause),
            }),
            Err(Refused::NoMemory) => Err(Status::NoMemory),
        },
        Err(fail) => Err(unread(fail, Which::Proof)),
    }
}
