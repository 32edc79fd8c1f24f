//! What runs in the threads of a hub, and what it reaches: readers, tickers, dialers, writers and pulses. Over TCP,
//! too.
#![tactic(auto)]

mod call;
mod entry;
mod outside;
mod reader;
mod stop;
mod tcp;
mod ticker;

pub use call::{Call, TcpCall};
pub use entry::{CHUNK, Chunk, EntryKind, Seconds};
pub use outside::{Dialer, Pulse, Writer};
pub use reader::{Finished, Reader};
pub use stop::StopFlag;
pub use tcp::{FailedDial, TcpDialer, TcpSource, TcpWriter, is_host_and_port};
pub use ticker::{Stopped, Ticker};
