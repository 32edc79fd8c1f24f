//! What the thread of a connection and its listener share.
use std::net::{Shutdown, TcpStream};
use std::sync::atomic::{AtomicBool, AtomicU64, Ordering};
use std::time::Clock;

/// The time in milliseconds since some moment, or 0 where the clock can't be read.
pub(crate) fn millis<R: Clock>(rt: &R) -> u64 {
    match rt.monotonic() {
        Ok(now) => u64::try_from(now.as_millis()).unwrap_or(u64::MAX),
        Err(_) => 0,
    }
}

/// A stream, and what its thread tells the listener of it. Times are in milliseconds.
#[derive(Drop)]
pub(crate) struct Pass {
    stream: TcpStream,
    // Whether something was written to it: the peer has told its version then.
    greeted: AtomicBool,
    // Whether a message or an answer is under way, and when something has come or was taken last.
    within: AtomicBool,
    moved: AtomicU64,
    // Whether the listener has cut it.
    cut: AtomicBool,
}

impl Pass {
    /// Nothing has passed the stream, up to now.
    pub(crate) fn new(stream: TcpStream, now: u64) -> Pass {
        Pass {
            stream,
            greeted: AtomicBool::new(false),
            within: AtomicBool::new(false),
            moved: AtomicU64::new(now),
            cut: AtomicBool::new(false),
        }
    }

    /// The stream, out of it.
    pub(crate) fn into_stream(self) -> TcpStream {
        let Pass { stream, .. } = self;
        stream
    }

    /// The stream.
    pub(crate) fn stream(&self) -> &TcpStream {
        &self.stream
    }

    /// Whether something was written to it.
    pub(crate) fn is_greeted(&self) -> bool {
        self.greeted.load(Ordering::SeqCst)
    }

    /// Something was written to it.
    pub(crate) fn greet(&self) {
        self.greeted.store(true, Ordering::SeqCst);
    }

    /// Whether a message or an answer is under way.
    pub(crate) fn is_within(&self) -> bool {
        self.within.load(Ordering::SeqCst)
    }

    /// Says whether a message or an answer is under way.
    pub(crate) fn set_within(&self, within: bool) {
        self.within.store(within, Ordering::SeqCst);
    }

    /// When something has come or was taken last.
    pub(crate) fn moved(&self) -> u64 {
        self.moved.load(Ordering::SeqCst)
    }

    /// Something has come or was taken now.
    pub(crate) fn set_moved(&self, now: u64) {
        self.moved.store(now, Ordering::SeqCst);
    }

    /// Whether the listener has cut it.
    pub(crate) fn is_cut(&self) -> bool {
        self.cut.load(Ordering::SeqCst)
    }

    /// Cuts it: whoever reads from it or writes to it fails.
    pub(crate) fn cut(&self) {
        self.cut.store(true, Ordering::SeqCst);
        // Where the peer has gone already there is nothing to shut.
        let _shut = self.stream.shutdown(Shutdown::Both);
    }
}
