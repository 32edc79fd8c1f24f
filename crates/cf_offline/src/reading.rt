//! The commands that read a file of blocks.
ghost use Rattle.std.specs.Prelude.{◌≡◌, ◌≢◌, [], ◌∷◌, false, length, nat_lt, IfOk, IfSome, option_map, string_bytes};
ghost use Rattle.std.specs.FinMap as finite;
ghost use Rattle.hex.specs.Hex.{encode_lower};
ghost use Rattle.cf_bytes.specs.{HasRisen};
ghost use Rattle.cf_chain.specs.{filter_at as filter_in};
ghost use Rattle.cf_conn.specs.{IsReadByParts};
ghost use Rattle.cf_loading.specs.{AreRead, Whole, ByParts, IsJudged, and_then, watch_verdict, blocks_verdict};
ghost use Rattle.cf_answers.specs.{has_run, named_line, CountsOut};
ghost use Rattle.cf_offline.specs.Reading.{IsFiltered, IsOfFilter, IsOfHeight, IsScanned, TellsHeight, filter_text};

use cf_answers::{Status, hash_line, line_of, write};
use cf_bytes::{Files, Hash32, NoMemory, Sink};
use cf_index::{CheckedChain, Index};
use cf_loading::{load_chain, load_watch, scan_file};
use std::alloc::Global;
use std::thread::Threads;

// Bytes as lower-case hexadecimal digits.
fn digits_of(alloc: Global, bytes: &[u8]) -> Result<String, NoMemory>
    ensures { IfOk result (λ text. string_bytes text ≡ encode_lower bytes.now) }
{
    Ok(hex::encode(alloc, bytes)?)
}

/// A line of a name and bytes, in hexadecimal.
pub(crate) fn bytes_line(alloc: Global, name: &str, bytes: &[u8]) -> Result<String, NoMemory>
    ensures { IfOk result (λ text. string_bytes text ≡ named_line name.now (encode_lower bytes.now)) }
{
    let value = digits_of(alloc, bytes)?;
    line_of(alloc, name, value.as_str())
}

// A block's hash, its filter and its filter header, one on each line.
fn text_of_filter(
    alloc: Global,
    block: &Hash32,
    filter: &[u8],
    header: &Hash32,
) -> Result<String, NoMemory>
    ensures { IfOk result (λ text. string_bytes text
        ≡ filter_text (record { block = block.now.0; filter = filter.now; header = header.now.0 })) }
{
    let block = hash_line(alloc, "block", block)?;
    let bytes = bytes_line(alloc, "filter", filter)?;
    let header = hash_line(alloc, "header", header)?;
    Ok(format!(in alloc; "{block}{bytes}{header}")?)
}

// The lines of the block at a height, where there is one.
fn text_at(alloc: Global, index: &Index, height: u32) -> Result<Option<String>, NoMemory>
    ensures { IfOk result (λ text. option_map string_bytes text ≡ option_map filter_text (filter_in index.now height)) }
{
    let Some(block) = index.hash(height) else {
        return Ok(None);
    };
    let Some(filter) = index.filter(height) else {
        return Ok(None);
    };
    let Some(header) = index.filter_header(height) else {
        return Ok(None);
    };
    let text = text_of_filter(alloc, &block, filter, &header)?;
    Ok(Some(text))
}

/// Writes the history of the watched scripts in a file of blocks, and its tip. The watch file is read first.
///
/// The answer is `Done` where the whole text was written. `BadFile` and `FileFault` are those of `load_watch` and of
/// `scan_file`, and nothing is written then; `OutFault` comes where the sink fails.
#[tactic(auto, using(crate::proofs::Asking::asked, crate::proofs::Scans::scans_so))]
pub fn scan<F: Files, O: Sink>(
    alloc: Global,
    files: &mut F,
    file: &str,
    watch: &str,
    out: &mut O,
) -> Status
    ensures judged { IfSome (F.files files.old) (λ m. IsJudged
        (and_then (watch_verdict (finite.get m watch.now)) (blocks_verdict (finite.get m file.now))) result) }
    ensures scanned { IsScanned result (F.files files.old) watch.now file.now (O.written out.old) (O.written out.new) }
    ensures unchanged { F.files files.new ≡ F.files files.old }
    ensures files { AreRead F.reads F.opens F.parts (Whole watch.now ∷ ByParts file.now ∷ []) files.old files.new }
    ensures unwritten { has_run result ≡ false → O.written out.new ≡ O.written out.old }
    ensures file_fault { result ≡ Status.FileFault → HasRisen (F.faults files.old) (F.faults files.new) }
    ensures file_fine { result ≢ Status.FileFault → F.faults files.new ≡ F.faults files.old }
    ensures counts { CountsOut result (O.faults out.old) (O.faults out.new) }
{
    let watch = match load_watch(alloc, files, watch) {
        Ok(watch) => watch,
        Err(status) => return status,
    };
    match scan_file(alloc, files, file, &watch) {
        Ok(text) => write(text.as_bytes(), out),
        Err(status) => status,
    }
}

/// Writes the hash, the filter and the filter header of the block at a height of a file of blocks. Genesis has
/// height 0.
///
/// The answer is `Done` where the whole text was written, and `NoHeight` with the height of the tip where the height is
/// above it. `BadFile` and `FileFault` are those of `load_chain`; `OutFault` comes where the sink fails. But for
/// `OutFault` nothing is written where the answer isn't `Done`.
pub fn filter<R: Threads + Sync, F: Files, O: Sink>(
    rt: &R,
    alloc: Global,
    files: &mut F,
    file: &str,
    height: u32,
    out: &mut O,
) -> Status
    ensures judged { IfSome (F.files files.old) (λ m. IsJudged (blocks_verdict (finite.get m file.now)) result) }
    ensures filtered { IsFiltered result (F.files files.old) file.now height (O.written out.old) (O.written out.new) }
    ensures unchanged { F.files files.new ≡ F.files files.old }
    ensures files { IsReadByParts F.opens F.parts file.now files.old files.new }
    ensures unwritten { has_run result ≡ false → O.written out.new ≡ O.written out.old }
    ensures file_fault { result ≡ Status.FileFault → HasRisen (F.faults files.old) (F.faults files.new) }
    ensures file_fine { result ≢ Status.FileFault → F.faults files.new ≡ F.faults files.old }
    ensures counts { CountsOut result (O.faults out.old) (O.faults out.new) }
{
    match load_chain(alloc, files, file) {
        Ok(chain) => filter_in(rt, alloc, chain, height, out),
        Err(status) => status,
    }
}

// Writes the lines of the block at a height of a chain, whose filters are built first.
fn filter_in<R: Threads + Sync, O: Sink>(
    rt: &R,
    alloc: Global,
    chain: CheckedChain,
    height: u32,
    out: &mut O,
) -> Status
    ensures told { TellsHeight result (O.written out.old)
        (O.written out.new) chain height (nat_lt (length chain) height) }
    ensures answers { IsOfFilter result (O.written out.old) (O.written out.new) }
    ensures unwritten { has_run result ≡ false → O.written out.new ≡ O.written out.old }
    ensures counts { CountsOut result (O.faults out.old) (O.faults out.new) }
    ensures ends { IsOfHeight result }
{
    match Index::of(rt, alloc, chain) {
        Ok(index) => write_filter(alloc, &index, height, out),
        Err(NoMemory) => Status::NoMemory,
    }
}

// Writes the lines of the block at a height, or answers that there is none.
fn write_filter<O: Sink>(alloc: Global, index: &Index, height: u32, out: &mut O) -> Status
    ensures told { TellsHeight result (O.written out.old)
        (O.written out.new) index.now height (nat_lt (length index.now) height) }
    ensures answers { IsOfFilter result (O.written out.old) (O.written out.new) }
    ensures unwritten { has_run result ≡ false → O.written out.new ≡ O.written out.old }
    ensures counts { CountsOut result (O.faults out.old) (O.faults out.new) }
    ensures ends { IsOfHeight result }
{
    match text_at(alloc, index, height) {
        Ok(Some(text)) => write(text.as_bytes(), out),
        Ok(None) => Status::NoHeight { tip: index.tip() },
        Err(NoMemory) => Status::NoMemory,
    }
}
