//! The writer of a transaction with a witness.
ghost use Rattle.std.specs.Prelude.{◌≡◌, ◌++◌, [], ◌∷◌, length, OnOk, OnErr};
ghost use Rattle.std.specs.Int.{w32, to_le_bytes, cast_unsigned};
ghost use Rattle.std.specs.List.{flat_map};
ghost use Rattle.cf_bytes.specs.{compact};
ghost use Rattle.cf_block.specs.Tx.{input_spelling, output_spelling};
ghost use Rattle.cf_block.specs.Stored.{stack_spelling, extended_spelling};

use crate::tx::Tx;
use crate::write::{put_counted, put_inputs, put_outputs};
use cf_bytes::{NoMemory, put_compact};

// Writes a stack of one item.
#[tactic(auto, unfolding(crate::specs::Stored::stack_spelling))]
fn put_stack(item: &[u8], out: &mut Vec<u8>) -> Result<(), NoMemory>
    ensures { OnOk result (out.new.items ≡ out.old.items ++ stack_spelling (item.now ∷ [])) }
{
    put_compact(out, 1)?;
    put_counted(item, out)?;
    Ok(())
}

// The version, and what stands in the place of the count of inputs.
fn put_head(t: &Tx, out: &mut Vec<u8>) -> Result<(), NoMemory>
    ensures { OnOk result
        (out.new.items ≡ out.old.items ++ (to_le_bytes w32 (cast_unsigned w32 t.now.version) ++ (0 ∷ 1 ∷ []))) }
{
    out.extend_from_slice(&t.version.cast_unsigned().to_le_bytes())?;
    out.extend_from_slice(&[0, 1])?;
    Ok(())
}

// The inputs and the outputs.
fn put_sides(t: &Tx, out: &mut Vec<u8>) -> Result<(), NoMemory>
    ensures { OnOk result (out.new.items ≡ out.old.items ++ (compact (length t.now.inputs) ++ (flat_map input_spelling
        t.now.inputs ++ (compact (length t.now.outputs) ++ flat_map output_spelling t.now.outputs)))) }
{
    put_compact(out, t.inputs.len() as u64)?;
    put_inputs(t.inputs.as_slice(), out)?;
    put_compact(out, t.outputs.len() as u64)?;
    put_outputs(t.outputs.as_slice(), out)?;
    Ok(())
}

// The only stack and the lock time.
fn put_tail(t: &Tx, item: &[u8], out: &mut Vec<u8>) -> Result<(), NoMemory>
    ensures { OnOk result (out.new.items ≡ out.old.items
        ++ (flat_map stack_spelling ((item.now ∷ []) ∷ []) ++ to_le_bytes w32 t.now.lock_time)) }
{
    put_stack(item, out)?;
    out.extend_from_slice(&t.lock_time.to_le_bytes())?;
    Ok(())
}

#[tactic(auto, using(crate::proofs::Writing::three_parts))]
fn put_extended(t: &Tx, item: &[u8], out: &mut Vec<u8>) -> Result<(), NoMemory>
    ensures { OnOk result (out.new.items ≡ out.old.items ++ extended_spelling t.now ((item.now ∷ []) ∷ [])) }
{
    put_head(t, out)?;
    put_sides(t, out)?;
    put_tail(t, item, out)?;
    Ok(())
}

/// Writes the bytes of a transaction of one input at the end, in its form with witnesses (BIP 144, "Serialization"),
/// this one item being its stack. Where no memory is found nothing is written, so they are first written apart.
pub fn write_with_witness(t: &Tx, item: &[u8], out: &mut Vec<u8>) -> Result<(), NoMemory>
    ensures ok { OnOk result (out.new.items ≡ out.old.items ++ extended_spelling t.now ((item.now ∷ []) ∷ [])) }
    ensures err { OnErr result (out.new.items ≡ out.old.items) }
{
    let mut bytes = Vec::new(*out.allocator());
    put_extended(t, item, &mut bytes)?;
    out.extend_from_slice(&bytes)?;
    Ok(())
}
