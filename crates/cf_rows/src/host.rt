//! What a call of the program goes by.
use std::sync::Wait;
use std::thread::Threads;

/// A handle by which a call of the program waits and starts threads, and which it hands to them.
pub trait Host: Wait + Threads + Sync + Copy + Drop + Send + 'static {}

impl<R: Wait + Threads + Sync + Copy + Drop + Send + 'static> Host for R {}
