//! Sources that are read to their ends, and connections that are closed.
ghost use Rattle.std.specs.Prelude.{◌<◌};

use cf_bytes::VecSink;
use cf_conn::{Duplex, MemoryConn, MemoryEnd, SliceSource, read_all, send_all};
use std::alloc::Global;
use std::test::*;

// A connection that gives these bytes, so many at most in one read, and takes two in one write.
fn conn_of(alloc: Global, bytes: &[u8], most: usize) -> Result<MemoryConn, Fail>
    requires { 0 < most }
{
    let sink = VecSink::new(alloc, 2, 8).ok().ok_or("no memory")?;
    Ok(MemoryConn::new(alloc, Vec::from_slice(alloc, bytes)?, most, sink))
}

// Whether the end was read, how many reads and writes failed, the bytes left and those written.
fn told(alloc: Global, end: &MemoryEnd) -> Result<String, Fail> {
    let (ended, reads, writes) = (end.ended(), end.read_faults(), end.write_faults());
    let (left, written) = (end.left(), end.written());
    Ok(format!(in alloc; "{ended} {reads} {writes} {left:?} {written:?}")?)
}

// At most five bytes of a connection, whose read of this number fails.
fn all_of(alloc: Global, text: &str, failing: u64) -> Result<String, Fail> {
    let mut conn = conn_of(alloc, text.as_bytes(), 2)?;
    conn.failing_reads(&[failing]).ok().ok_or("no memory")?;
    let answer = read_all(alloc, &mut conn, 5);
    let end = told(alloc, &conn.close())?;
    Ok(format!(in alloc; "{answer:?} {end}")?)
}

#[test]
fn a_source_is_read_to_its_end(rt: HostRuntime) -> Result<(), Fail> {
    let rows = "\
abc|0|Ok([97, 98, 99]) true 0 0 [] []\n\
abcde|0|Ok([97, 98, 99, 100, 101]) true 0 0 [] []\n\
abcdefg|0|Err(TooBig) false 0 0 [103] []\n\
abcde|2|Err(Failed) false 1 0 [99, 100, 101] []\n\
abc|3|Err(Failed) false 1 0 [] []";
    for row in rows.lines() {
        let (text, rest) = row.split_once('|').ok_or("no row")?;
        let (failing, wanted) = rest.split_once('|').ok_or("no row")?;
        let failing: u64 = failing.parse().ok().ok_or("no number")?;
        let told = all_of(rt.alloc(), text, failing)?;
        assert_eq!(rt; told.as_str(), wanted);
    }
    let mut slice = SliceSource::new(rt.alloc(), b"abc", 2);
    let bytes = read_all(rt.alloc(), &mut slice, 3).ok().ok_or("not read")?;
    assert_eq!(rt; bytes.as_slice(), b"abc".as_slice());
    Ok(())
}

// Reads once, sends that back, and closes.
fn echo<D: Duplex>(conn: D) -> D::End {
    let mut conn = conn;
    let mut into = [0u8; 4];
    if let Ok(n) = conn.receive(&mut into) {
        let _sent = send_all(&mut conn, &into[..n]);
    }
    conn.close()
}

#[test]
fn a_closed_connection_tells_what_it_did(rt: HostRuntime) -> Result<(), Fail> {
    let rows =
        "0|false 0 0 [100, 101] [97, 98, 99]\n1|false 0 1 [100, 101] []\n2|false 0 1 [100, 101] [97, 98]";
    for row in rows.lines() {
        let (failing, wanted) = row.split_once('|').ok_or("no row")?;
        let failing: u64 = failing.parse().ok().ok_or("no number")?;
        let mut conn = conn_of(rt.alloc(), b"abcde", 3)?;
        conn.failing_writes(&[failing]).ok().ok_or("no memory")?;
        let told = told(rt.alloc(), &echo(conn))?;
        assert_eq!(rt; told.as_str(), wanted);
    }
    Ok(())
}
