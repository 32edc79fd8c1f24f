//! Where bytes come from, and both ways, as traits; a file that was opened, and a window on a source's next bytes.
#![tactic(auto)]

mod duplex;
mod in_memory;
mod opened;
mod reading;
mod sending;
mod source;
mod window;

pub use duplex::Duplex;
pub use in_memory::{MemoryConn, MemoryEnd, SliceSource};
pub use opened::Opened;
pub use reading::{ReadFail, read_all};
pub use sending::send_all;
pub use source::Source;
pub use window::Window;
