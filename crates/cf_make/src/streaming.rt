//! The records of a made chain, made a block at a time.
ghost use Rattle.std.specs.Prelude.{◌≡◌, ◌≤◌, ◌<◌, ◌++◌, IfOk, IfErr, OnOk};
ghost use Rattle.cf_headers.specs.{height_limit};
ghost use Rattle.cf_make.specs.Made.{seed_limit, genesis_tip};
ghost use Rattle.cf_make.specs.Records.{made_record};
ghost use Rattle.cf_make.specs.Streamed.{AreRecordsOf, StopsFor};

use crate::tipped::{AtHeight, Tip, make_tipped};
use crate::witnessing::put_text;
use cf_block::{Block, block_hash, genesis_header};
use cf_bytes::{MAGIC, NoMemory, Refused};
use std::alloc::Global;

// Puts a block's record at the end, with its coinbase's witness or without. The buffer is spent.
#[tactic(auto, unfolding(crate::specs::Records::made_record))]
fn put_record_by(
    witness: bool,
    block: &Block,
    buffer: &mut Vec<u8>,
    out: &mut Vec<u8>,
) -> Result<(), NoMemory>
    ensures { OnOk result (out.new.items ≡ out.old.items ++ made_record witness block.now) }
{
    buffer.clear();
    put_text(witness, block, buffer)?;
    let Ok(len) = u32::try_from(buffer.len()) else {
        return Err(NoMemory);
    };
    out.extend_from_slice(&MAGIC)?;
    out.extend_from_slice(&len.to_le_bytes())?;
    out.extend_from_slice(buffer)?;
    Ok(())
}

fn first_tip() -> Tip
    ensures { result ≡ genesis_tip }
{
    Tip {
        hash: block_hash(&genesis_header()),
        coin: None,
    }
}

/// The records of the chain of so many blocks that the seed tells, the lowest first: as `records` gives them of
/// `chain`, or with a witness of 32 zero bytes in each coinbase, as nodes keep them (BIP 141, "Commitment structure").
/// One block is held at a time. `NoNonce` comes as for `chain`. Seeds are below 2 ^ 33, and there are at most 500,000
/// blocks.
pub fn made_records(
    alloc: Global,
    witness: bool,
    seed: u64,
    blocks: u32,
) -> Result<Vec<u8>, Refused<AtHeight>>
    requires seeds { seed < seed_limit }
    requires heights { blocks ≤ height_limit }
    ensures made { IfOk result (λ v. AreRecordsOf witness seed blocks v.items) }
    ensures stops { IfErr result (λ e. StopsFor seed blocks e) }
{
    let mut tip = first_tip();
    let mut height = 0;
    let mut buffer = Vec::new(alloc);
    let mut out = Vec::new(alloc);
    for _ in 0..blocks {
        height += 1;
        let made = make_tipped(alloc, seed, height, tip)?;
        tip = made.tip;
        put_record_by(witness, &made.block, &mut buffer, &mut out)?;
    }
    Ok(out)
}
