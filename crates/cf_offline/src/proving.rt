//! The commands over proofs of transactions.
ghost use Rattle.std.specs.Prelude.{◌≡◌, ◌≢◌, ◌<◌, ◌≤◌, [], ◌∷◌, false, length, IfOk, IfSome, bytes_eq, option_map, position, string_bytes};
ghost use Rattle.std.specs.FinMap as finite;
ghost use Rattle.hex.specs.Hex.{IsBytes};
ghost use Rattle.cf_block.specs.{block_hash_of, tx_spelling};
ghost use Rattle.cf_bytes.specs.{IsRead, HasRisen};
ghost use Rattle.cf_chain.specs.{IsGoodChain};
ghost use Rattle.cf_conn.specs.{IsReadByParts};
ghost use Rattle.cf_offline.specs.Proving.{proof_text, in_text, IsTextAt, GivesProofText, TellsPlace, TellsProof, Checks, ChecksIn, IsOfCheck, IsOfFind, IsOfPlace, IsOfProve, IsProved, IsChecked, check_verdict, files_checked, height_in, in_text_at};
ghost use Rattle.cf_answers.specs.{has_run, CountsOut, IsOfText, IsWritten};
ghost use Rattle.cf_offline.specs.Reading.{IsOfScan};
ghost use Rattle.cf_index.specs.{first_place, StandsAt};
ghost use Rattle.cf_input.specs.{proof_file_of};
ghost use Rattle.cf_loading.specs.{AreRead, ByParts, IsJudged, Whole, and_then, blocks_verdict, proof_verdict};
ghost use Rattle.cf_walk.specs.Files.{blocks_at};

use crate::reading::bytes_line;
use cf_answers::{Status, write};
use cf_block::{Block, Tx, block_hash, genesis_header, write_tx};
use cf_bytes::{Files, Hash32, NoMemory, Sink, show};
use cf_index::{CheckedChain, TxIndex};
use cf_input::{Proven, Word};
use cf_loading::{load_chain, load_proof};
use cf_proof::make_proof;
use std::alloc::Global;

// What a slice of bytes holds are bytes: its type says so.
fn are_bytes(bytes: &[u8])
    ensures { IsBytes bytes.now }
{}

// The bytes of a transaction.
fn bytes_of_tx(alloc: Global, tx: &Tx) -> Result<Vec<u8>, NoMemory>
    ensures { IfOk result (λ v. v.items ≡ tx_spelling tx.now) }
{
    let mut bytes = Vec::new(alloc);
    write_tx(tx, &mut bytes)?;
    Ok(bytes)
}

// The lines of the bytes of a transaction and of a proof.
fn text_of_proof(alloc: Global, tx: &[u8], proof: &[u8]) -> Result<String, NoMemory>
    ensures { IfOk result (λ text. string_bytes text ≡ proof_text tx.now proof.now) }
{
    let tx = bytes_line(alloc, "tx", tx)?;
    let proof = bytes_line(alloc, "proof", proof)?;
    Ok(format!(in alloc; "{tx}{proof}")?)
}

// The lines of the transaction at a place of a block.
fn text_at(alloc: Global, block: &Block, place: u32) -> Result<String, NoMemory>
    requires few { length block.now.txs ≤ 16666 }
    requires there { place < length block.now.txs }
    ensures { IfOk result (λ text. IsTextAt block.now place (string_bytes text)) }
{
    let tx = bytes_of_tx(alloc, &block.txs.as_slice()[place as usize])?;
    let proof = make_proof(alloc, block, place)?;
    // Both are bytes, as `IsTextAt` has it.
    are_bytes(&tx);
    are_bytes(&proof);
    text_of_proof(alloc, &tx, &proof)
}

// Where the first transaction of a chain with this hash stands, by an index that is let go then.
fn place_in(
    alloc: Global,
    chain: &CheckedChain,
    txid: &Hash32,
) -> Result<Option<(u32, u32)>, NoMemory>
    ensures first { IfOk result (λ at. at ≡ first_place txid.now.0 chain.now) }
    ensures stands { IfOk result (λ at. IfSome at (λ p. StandsAt txid.now.0 chain.now p.0 p.1)) }
{
    let index = TxIndex::of(alloc, chain)?;
    Ok(index.find(txid))
}

// The lines of the first transaction of a chain with this hash, where there is one.
fn text_in(alloc: Global, chain: &CheckedChain, txid: &Hash32) -> Result<Option<String>, NoMemory>
    requires { IsGoodChain chain.now }
    ensures { IfOk result (λ text. GivesProofText txid.now.0 chain.now (option_map string_bytes text)) }
{
    let found = place_in(alloc, chain, txid)?;
    let Some((height, place)) = found else {
        return Ok(None);
    };
    let block = &chain.blocks()[height as usize - 1];
    let text = text_at(alloc, block, place)?;
    Ok(Some(text))
}

/// Writes the first transaction of a file of blocks, above genesis, with this hash, and a proof that it stands in its
/// block.
///
/// The answer is `Done` where the whole text was written, and `NotThere` where no block above genesis has such a
/// transaction. `BadFile` and `FileFault` are those of `load_chain`; `OutFault` comes where the sink fails. But for
/// `OutFault` nothing is written where the answer isn't `Done`.
pub fn prove<F: Files, O: Sink>(
    alloc: Global,
    files: &mut F,
    file: &str,
    txid: &Hash32,
    out: &mut O,
) -> Status
    ensures judged { IfSome (F.files files.old) (λ m. IsJudged (blocks_verdict (finite.get m file.now)) result) }
    ensures proved { IsProved result (F.files files.old) file.now txid.now (O.written out.old) (O.written out.new) }
    ensures unchanged { F.files files.new ≡ F.files files.old }
    ensures files { IsReadByParts F.opens F.parts file.now files.old files.new }
    ensures unwritten { has_run result ≡ false → O.written out.new ≡ O.written out.old }
    ensures file_fault { result ≡ Status.FileFault → HasRisen (F.faults files.old) (F.faults files.new) }
    ensures file_fine { result ≢ Status.FileFault → F.faults files.new ≡ F.faults files.old }
    ensures counts { CountsOut result (O.faults out.old) (O.faults out.new) }
{
    match load_chain(alloc, files, file) {
        Ok(chain) => prove_in(alloc, &chain, txid, out),
        Err(status) => status,
    }
}

// Writes the lines of the first transaction of a chain with this hash, or answers that there is none.
fn prove_in<O: Sink>(alloc: Global, chain: &CheckedChain, txid: &Hash32, out: &mut O) -> Status
    requires { IsGoodChain chain.now }
    ensures told { TellsProof result txid.now chain.now (O.written out.old) (O.written out.new) }
    ensures answers { IsOfProve result (O.written out.old) (O.written out.new) }
    ensures unwritten { has_run result ≡ false → O.written out.new ≡ O.written out.old }
    ensures counts { CountsOut result (O.faults out.old) (O.faults out.new) }
    ensures ends { IsOfFind result }
{
    match text_in(alloc, chain, txid) {
        Ok(Some(text)) => write(text.as_bytes(), out),
        Ok(None) => Status::NotThere { txid: *txid },
        Err(NoMemory) => Status::NoMemory,
    }
}

// The line of what is proven.
fn text_of_proven(alloc: Global, proven: &Proven) -> Result<String, NoMemory>
    ensures { IfOk result (λ text. string_bytes text ≡ in_text proven.now) }
{
    let block = show(alloc, &proven.block)?;
    let txid = show(alloc, &proven.txid)?;
    Ok(format!(in alloc; "in {block} {txid}\n")?)
}

// Writes it.
fn write_proven<O: Sink>(alloc: Global, proven: &Proven, out: &mut O) -> Status
    ensures written { IsWritten result (O.written out.old) (O.written out.new) (in_text proven.now) }
    ensures unwritten { has_run result ≡ false → O.written out.new ≡ O.written out.old }
    ensures counts { CountsOut result (O.faults out.old) (O.faults out.new) }
    ensures ends { IsOfText result }
{
    match text_of_proven(alloc, proven) {
        Ok(text) => write(text.as_bytes(), out),
        Err(NoMemory) => Status::NoMemory,
    }
}

// The line of what is proven, with the height of its block.
fn text_of_placed(alloc: Global, proven: &Proven, height: u32) -> Result<String, NoMemory>
    ensures { IfOk result (λ text. string_bytes text ≡ in_text_at proven.now height) }
{
    let header = show(alloc, &proven.block)?;
    let txid = show(alloc, &proven.txid)?;
    Ok(format!(in alloc; "in {header} {txid} at {height}\n")?)
}

// Writes it.
fn write_placed<O: Sink>(alloc: Global, proven: &Proven, height: u32, out: &mut O) -> Status
    ensures written { IsWritten result (O.written out.old) (O.written out.new) (in_text_at proven.now height) }
    ensures unwritten { has_run result ≡ false → O.written out.new ≡ O.written out.old }
    ensures counts { CountsOut result (O.faults out.old) (O.faults out.new) }
    ensures ends { IsOfText result }
{
    match text_of_placed(alloc, proven, height) {
        Ok(text) => write(text.as_bytes(), out),
        Err(NoMemory) => Status::NoMemory,
    }
}

// The place of the first of these blocks with this hash, from 0.
fn place_of(blocks: &[Block], hash: &Hash32) -> Option<usize>
    ensures { result ≡ position (λ b. bytes_eq (block_hash_of b.header) hash.now.0) blocks.now }
{
    blocks
        .iter()
        .position(|block| block_hash(&block.header) == *hash)
}

// The height of the block with this hash in a chain, genesis at 0.
fn height_of(chain: &CheckedChain, hash: &Hash32) -> Option<u32>
    ensures { result ≡ height_in hash.now.0 chain.now }
{
    if block_hash(&genesis_header()) == *hash {
        return Some(0);
    }
    // There are at most as many blocks as the tip's height.
    let _tip = chain.tip();
    let place = place_of(chain.blocks(), hash)?;
    Some(place as u32 + 1)
}

// Writes the line of what is proven with the height of its block in a chain, or answers that the chain hasn't got it.
fn place_proven<O: Sink>(
    alloc: Global,
    chain: &CheckedChain,
    proven: &Proven,
    out: &mut O,
) -> Status
    ensures told { TellsPlace result proven.now (height_in proven.now.block.0 chain.now)
        (O.written out.old) (O.written out.new) }
    ensures answers { IsOfCheck result (O.written out.old) (O.written out.new) }
    ensures unwritten { has_run result ≡ false → O.written out.new ≡ O.written out.old }
    ensures counts { CountsOut result (O.faults out.old) (O.faults out.new) }
    ensures ends { IsOfPlace result }
{
    match height_of(chain, &proven.block) {
        Some(height) => write_placed(alloc, proven, height, out),
        None => Status::NotInChain {
            block: proven.block,
        },
    }
}

// Checks the proof of a file, and writes the line of what it proves.
fn check_file<F: Files, O: Sink>(
    alloc: Global,
    files: &mut F,
    witness: bool,
    file: &str,
    out: &mut O,
) -> Status
    ensures judged { IfSome (F.files files.old) (λ m. IsJudged (proof_verdict witness (finite.get m file.now)) result) }
    ensures answers { IsOfScan result (O.written out.old) (O.written out.new) }
    ensures told { IfSome (F.files files.old) (λ m. IfSome (finite.get m file.now)
        (λ b. Checks result (proof_file_of witness b) (O.written out.old) (O.written out.new))) }
    ensures unchanged { F.files files.new ≡ F.files files.old }
    ensures files { IsRead F.reads file.now files.old files.new }
    ensures unwritten { has_run result ≡ false → O.written out.new ≡ O.written out.old }
    ensures file_fault { result ≡ Status.FileFault → HasRisen (F.faults files.old) (F.faults files.new) }
    ensures file_fine { result ≢ Status.FileFault → F.faults files.new ≡ F.faults files.old }
    ensures counts { CountsOut result (O.faults out.old) (O.faults out.new) }
{
    match load_proof(alloc, files, witness, file) {
        Ok(proven) => write_proven(alloc, &proven, out),
        Err(status) => status,
    }
}

// Checks the proof of a file, and writes the line of what it proves with the height of its block in the chain of another
// file, which is read after it.
#[tactic(auto, using(crate::proofs::Asking::asked))]
fn check_in<F: Files, O: Sink>(
    alloc: Global,
    files: &mut F,
    witness: bool,
    file: &str,
    chain: &str,
    out: &mut O,
) -> Status
    ensures judged { IfSome (F.files files.old) (λ m. IsJudged (and_then (proof_verdict witness (finite.get m file.now))
        (blocks_verdict (finite.get m chain.now))) result) }
    ensures answers { IsOfCheck result (O.written out.old) (O.written out.new) }
    ensures told { IfSome (F.files files.old) (λ m. IfSome (finite.get m file.now) (λ b. IfSome (finite.get m chain.now)
        (λ c. ChecksIn result (proof_file_of witness b) (blocks_at c) (O.written out.old) (O.written out.new)))) }
    ensures unchanged { F.files files.new ≡ F.files files.old }
    ensures files { AreRead F.reads F.opens F.parts (Whole file.now ∷ ByParts chain.now ∷ []) files.old files.new }
    ensures unwritten { has_run result ≡ false → O.written out.new ≡ O.written out.old }
    ensures file_fault { result ≡ Status.FileFault → HasRisen (F.faults files.old) (F.faults files.new) }
    ensures file_fine { result ≢ Status.FileFault → F.faults files.new ≡ F.faults files.old }
    ensures counts { CountsOut result (O.faults out.old) (O.faults out.new) }
{
    let proven = match load_proof(alloc, files, witness, file) {
        Ok(proven) => proven,
        Err(status) => return status,
    };
    match load_chain(alloc, files, chain) {
        Ok(chain) => place_proven(alloc, &chain, &proven, out),
        Err(status) => status,
    }
}

/// Checks the proof of a file, and writes the block and the transaction that it tells of. What `prove` writes of a good
/// chain is taken. Its transaction has no witnesses; with `witness` it may have some, which don't count. Where a file of
/// blocks is named, the block's height in its chain is written too.
///
/// The answer is `Done` where the whole line was written, and `NotInChain` where the chain hasn't got the block.
/// `BadFile` and `FileFault` are those of `load_proof`, and after it of `load_chain`, and nothing is written then;
/// `OutFault` comes where the sink fails.
pub fn check<F: Files, O: Sink>(
    alloc: Global,
    files: &mut F,
    witness: bool,
    file: &str,
    blocks: &Option<Word>,
    out: &mut O,
) -> Status
    ensures judged { IfSome (F.files files.old)
        (λ m. IsJudged (check_verdict m witness file.now blocks.now) result) }
    ensures checked { IsChecked result witness (F.files files.old) file.now blocks.now
        (O.written out.old) (O.written out.new) }
    ensures unchanged { F.files files.new ≡ F.files files.old }
    ensures files { AreRead F.reads F.opens F.parts (files_checked file.now blocks.now) files.old files.new }
    ensures unwritten { has_run result ≡ false → O.written out.new ≡ O.written out.old }
    ensures file_fault { result ≡ Status.FileFault → HasRisen (F.faults files.old) (F.faults files.new) }
    ensures file_fine { result ≢ Status.FileFault → F.faults files.new ≡ F.faults files.old }
    ensures counts { CountsOut result (O.faults out.old) (O.faults out.new) }
{
    match blocks {
        Some(chain) => check_in(alloc, files, witness, file, chain.as_str(), out),
        None => check_file(alloc, files, witness, file, out),
    }
}
