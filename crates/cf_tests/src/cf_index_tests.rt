//! Indexes and chains that are read from sources in memory.
ghost use Rattle.std.specs.Prelude.{◌<◌};

use crate::blocks_file::FILE;
use cf_conn::SliceSource;
use cf_index::{Index, read_source};
use std::alloc::Global;
use std::test::*;
use std::thread::Threads;

// How many of its bytes there are, the most that one read gives, the read that fails, counted from 1 (0: none), and
// what reading them comes to: the height of the tip, or why there is none.
const ROWS: &str = "578 1 0 tip 3
578 3 0 tip 3
578 4096 0 tip 3
578 100 3 the blocks can't be read
578 1 1 the blocks can't be read
577 7 0 record 3: the record is cut off
200 7 0 record 2: the record is cut off
411 64 0 tip 2
0 1 0 tip 0";

// The index of these bytes.
fn loaded(
    rt: &(impl Threads + Sync),
    alloc: Global,
    bytes: &[u8],
    most: usize,
    failing: u64,
) -> Result<String, Fail>
    requires { 0 < most }
{
    let mut source = SliceSource::new(alloc, bytes, most);
    source.failing(&[failing]).ok().ok_or("no memory")?;
    match read_source(alloc, &mut source) {
        Ok(chain) => {
            let index = Index::of(rt, alloc, chain)?;
            Ok(format!(in alloc; "tip {}", index.tip())?)
        }
        Err(fault) => Ok(format!(in alloc; "{fault}")?),
    }
}

// The chain of these bytes.
fn read(alloc: Global, bytes: &[u8], most: usize, failing: u64) -> Result<String, Fail>
    requires { 0 < most }
{
    let mut source = SliceSource::new(alloc, bytes, most);
    source.failing(&[failing]).ok().ok_or("no memory")?;
    match read_source(alloc, &mut source) {
        Ok(chain) => Ok(format!(in alloc; "tip {}", chain.tip())?),
        Err(fault) => Ok(format!(in alloc; "{fault}")?),
    }
}

// The next number of a row, and the words after it.
fn number(words: &str) -> Result<(usize, &str), Fail> {
    let (word, rest) = words.split_once(' ').ok_or("no word")?;
    let n = word.parse().ok().ok_or("no number")?;
    Ok((n, rest))
}

fn is_as_told(
    rt: &(impl Threads + Sync),
    alloc: Global,
    file: &[u8],
    row: &str,
) -> Result<bool, Fail> {
    let (length, rest) = number(row)?;
    let (most, rest) = number(rest)?;
    let (failing, wanted) = number(rest)?;
    let bytes = file.get(..length).ok_or("no bytes")?;
    if most == 0 {
        return Err("no byte at a time".into());
    }
    let index = loaded(rt, alloc, bytes, most, failing as u64)?;
    let chain = read(alloc, bytes, most, failing as u64)?;
    Ok(index.as_str() == wanted && chain.as_str() == wanted)
}

#[test]
fn indexes_and_chains_are_read_from_sources(rt: HostRuntime) -> Result<(), Fail> {
    let alloc = rt.alloc();
    let file = hex::decode(alloc, FILE).ok().ok_or("no bytes")?;
    for row in ROWS.lines() {
        assert!(rt; is_as_told(&rt, alloc, &file, row)?, "{row}");
    }
    Ok(())
}
