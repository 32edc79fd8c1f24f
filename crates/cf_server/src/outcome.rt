//! How serving a connection ended.
ghost use Rattle.std.specs.Prelude.{◌≡◌};
ghost use Rattle.cf_server.specs.declared.outcome.ServeEnd.TheVariants.{NoMemory as OutOfMemory};
ghost use Rattle.cf_server.specs.Outcomes.{number_of};

use cf_bytes::NoMemory;
use cf_frame::FrameFault;
use cf_msg::Malformed;
use thiserror::Error;

/// How serving a connection ended.
#[derive(Clone, Copy, Debug, PartialEq, Eq, Error)]
pub enum ServeEnd {
    /// The source of bytes ended.
    #[error("the connection ended")]
    Closed,
    /// The bytes that came are no frame.
    #[error("{0}")]
    BadFrame(FrameFault),
    /// A frame's payload is no spelling of its command's message.
    #[error("{0}")]
    Malformed(Malformed),
    /// Reading failed.
    #[error("reading from the connection failed")]
    ReadFault,
    /// Writing failed.
    #[error("writing to the connection failed")]
    WriteFault,
    /// As many frames were taken as one connection may send.
    #[error("the connection sent 1000000 frames")]
    Tired,
    /// No memory was found.
    #[error("no memory")]
    NoMemory,
}

impl ServeEnd {
    /// The outcome's number, from 0.
    pub fn number(&self) -> u8
        ensures { result ≡ number_of self.now }
    {
        match self {
            ServeEnd::Closed => 0,
            ServeEnd::BadFrame(_) => 1,
            ServeEnd::Malformed(_) => 2,
            ServeEnd::ReadFault => 3,
            ServeEnd::WriteFault => 4,
            ServeEnd::Tired => 5,
            ServeEnd::NoMemory => 6,
        }
    }
}

impl From<NoMemory> for ServeEnd {
    ghost from_gives = { λ _ e. e ≡ OutOfMemory };

    fn from(_e: NoMemory) -> ServeEnd {
        ServeEnd::NoMemory
    }
}
