//! Tasks that are run once, what runs them in threads of their own, queues between threads through which what each
//! sends comes in its order, and how threads read and write streams.
#![tactic(auto)]

mod ends;
mod entry;
mod passing;
mod platform;
mod rule;
mod stream;
mod task;
mod threads;
mod workers;

pub use ends::{Back, Front, Line, Queue, Seat, Sender, Taker};
pub use entry::{Ended, Item, View};
pub use passing::Passing;
pub use platform::{Flag, Platform};
pub use rule::InOrder;
pub use stream::{read_some, write_some};
pub use task::Task;
pub use threads::{Choice, InThreads, Running, Spawner, joined};
pub use workers::{Answer, Busy, Waited, Waiter, Workers};
