//! Serving the connections that a listener accepts, each in a task of its own.
#![tactic(auto)]

mod door;
mod flag;
mod in_memory;
mod limits;
mod line;
mod link;
mod meter;
mod paced;
mod pass;
mod serving;
mod task;
mod tcp;

pub use door::{IDLE_GRACE, MOST_WAITING, VERSION_GRACE, WITHIN_GRACE};
pub use in_memory::ListLink;
pub use limits::Limits;
pub use link::Link;
pub use paced::{
    ANSWER_SECONDS, BYTES_A_SECOND, LARGE, MESSAGE_SECONDS, READ_SECONDS, VERSION_SECONDS,
    WRITE_SECONDS,
};
pub use serving::{ServeFail, serve};
pub use task::{Observed, ServeTask, ServedEnd, Service};
pub use tcp::{TcpConn, TcpEnd, TcpLink, Watcher};
