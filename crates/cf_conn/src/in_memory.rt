//! A source and a connection in memory, with calls that are to fail.
mod giving;
mod memory_conn;
mod slice_source;

pub use memory_conn::{MemoryConn, MemoryEnd};
pub use slice_source::SliceSource;
