//! The records of a file of blocks.
ghost use Rattle.std.specs.Prelude.{◌≡◌, ◌++◌, ◌+◌, ◌≤◌, ◌<◌, IfOk, Err, length};
ghost use Rattle.std.specs.Int.{w32, to_le_bytes};
ghost use Rattle.cf_bytes.specs.{magic};
ghost use Rattle.cf_walk.specs.Records.{record_with, max_record, magic_at, length_at, head_at, text_at, record_at, Takes};
ghost use Rattle.cf_walk.specs.declared.cause.RecordCause.TheVariants as causes;

use crate::cause::RecordCause;
use cf_bytes::{Cut, MAGIC};

// The most bytes of a block in a record, with its witnesses.
const MAX_RECORD: u32 = 4_000_000;

#[tactic(auto, using(crate::proofs::RecordLaws::short_bytes), unfolding(crate::specs::Records::magic_at))]
fn take_magic(cut: &mut Cut) -> Result<[u8; 4], RecordCause>
    ensures exact { Takes (λ b. b) (magic_at cut.old) result cut.new }
    ensures found { IfOk result (λ b. (b ≡ magic) × (cut.old ≡ b ++ cut.new)) }
    ensures short { result ≡ Err causes.Cut → length cut.old < 4 }
{
    match cut.array::<4>() {
        Err(_) => Err(RecordCause::Cut),
        Ok(bytes) => {
            if bytes != MAGIC {
                return Err(RecordCause::Magic);
            }
            Ok(bytes)
        }
    }
}

#[tactic(auto, using(crate::proofs::RecordLaws::short_number), unfolding(crate::specs::Records::length_at))]
fn take_length(cut: &mut Cut) -> Result<u32, RecordCause>
    ensures exact { Takes (λ n. n) (length_at cut.old) result cut.new }
    ensures found { IfOk result (λ n. (n ≤ max_record) × (cut.old ≡ to_le_bytes w32 n ++ cut.new)) }
    ensures short { result ≡ Err causes.Cut → length cut.old < 4 }
{
    match cut.u32() {
        Err(_) => Err(RecordCause::Cut),
        Ok(length) => {
            if length > MAX_RECORD {
                return Err(RecordCause::TooLong);
            }
            Ok(length)
        }
    }
}

// The length of the block of the record that stands here.
#[tactic(auto, unfolding(crate::specs::Records::head_at))]
pub(crate) fn take_head(cut: &mut Cut) -> Result<u32, RecordCause>
    ensures exact { Takes (λ n. n) (head_at cut.old) result cut.new }
    ensures found { IfOk result (λ n. (n ≤ max_record) × (cut.old ≡ magic ++ (to_le_bytes w32 n ++ cut.new))) }
    ensures short { result ≡ Err causes.Cut → length cut.old < 8 }
{
    if cut.rest().len() < 8 {
        return Err(RecordCause::Cut);
    }
    match take_magic(cut) {
        Err(cause) => Err(cause),
        Ok(_) => take_length(cut),
    }
}

#[tactic(auto, using(crate::proofs::RecordLaws::short_bytes))]
fn take_text<'a>(size: u32, cut: &mut Cut<'a>) -> Result<&'a [u8], RecordCause>
    ensures exact { Takes (λ b. b.now) (text_at size cut.old) result cut.new }
    ensures found { IfOk result (λ b. (cut.old ≡ b.now ++ cut.new) × (length b.now ≡ size)) }
    ensures short { result ≡ Err causes.Cut → length cut.old < size }
{
    match cut.bytes(size as usize) {
        Err(_) => Err(RecordCause::Cut),
        Ok(bytes) => Ok(bytes),
    }
}

/// The bytes of the block of the record that stands here, lent.
#[tactic(auto, unfolding(crate::specs::Records::record_at))]
pub fn take_record<'a>(cut: &mut Cut<'a>) -> Result<&'a [u8], RecordCause>
    ensures exact { Takes (λ b. b.now) (record_at cut.old) result cut.new }
    ensures found { IfOk result (λ b. (cut.old ≡ record_with b.now ++ cut.new) × (length b.now ≤ max_record)) }
    ensures short { result ≡ Err causes.Cut → length cut.old < max_record + 8 }
{
    match take_head(cut) {
        Err(cause) => Err(cause),
        Ok(size) => take_text(size, cut),
    }
}
