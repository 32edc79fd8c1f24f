//! One read and one write of a stream over TCP.
ghost use Rattle.std.specs.Prelude.{◌≤◌, ◌<◌, ◌≡◌, length, drop, IfOk};

use std::io;
use std::io::{ErrorKind, Read, Write};
use std::net::TcpStream;

// How often a call that was interrupted is made again: a machine that slept, or a process that was stopped, interrupts
// it.
const TRIES: u64 = u64::MAX;

// Reads some bytes. A call that was interrupted is made again.
fn read_again(stream: &TcpStream, into: &mut [u8]) -> io::Result<usize>
    ensures { IfOk result (λ n. n ≤ length into.new) }
{
    let mut stream = stream;
    for _ in 0..TRIES {
        match stream.read(into) {
            Err(e) if e.kind() == ErrorKind::Interrupted => {}
            answer => return answer,
        }
    }
    Err(io::Error::from(ErrorKind::Interrupted))
}

// Writes some of the bytes. A call that was interrupted is made again.
fn write_again(stream: &TcpStream, from: &[u8]) -> io::Result<usize>
    ensures { IfOk result (λ n. n ≤ length from.now) }
{
    let mut stream = stream;
    for _ in 0..TRIES {
        match stream.write(from) {
            Err(e) if e.kind() == ErrorKind::Interrupted => {}
            answer => return answer,
        }
    }
    Err(io::Error::from(ErrorKind::Interrupted))
}

/// Reads some bytes, at most 4,096, and leaves what stands behind them as it was. None are read where the peer has
/// ended its side, and where there is no room. A call that was interrupted is made again.
pub fn read_some(stream: &TcpStream, into: &mut [u8]) -> io::Result<usize>
    ensures some { IfOk result (λ n. n ≤ length into.new) }
    ensures rest { IfOk result (λ n. drop n into.new ≡ drop n into.old) }
{
    let mut buffer = [0u8; 4096];
    let room = into.len().min(buffer.len());
    let n = read_again(stream, &mut buffer[..room])?;
    into[..n].copy_from_slice(&buffer[..n]);
    Ok(n)
}

/// Writes some of the bytes, at least one where there is one: a stream that takes none has failed. A call that was
/// interrupted is made again.
pub fn write_some(stream: &TcpStream, from: &[u8]) -> io::Result<usize>
    ensures { IfOk result (λ n. (n ≤ length from.now) × (0 < length from.now → 0 < n)) }
{
    match write_again(stream, from)? {
        0 if !from.is_empty() => Err(io::Error::from(ErrorKind::WriteZero)),
        n => Ok(n),
    }
}
