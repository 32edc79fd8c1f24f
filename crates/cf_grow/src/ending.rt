//! How serving a connection from a chain that grows ended.
ghost use Rattle.std.specs.Prelude.{◌≡◌};
ghost use Rattle.cf_grow.specs.declared.ending.Ending.TheVariants.{Served as ServedSo};
ghost use Rattle.cf_grow.specs.Serving.{ending_number, ending_of};

use crate::mark::{Shrunk, TakeFail};
use cf_server::ServeEnd;

/// How serving a connection ended.
#[derive(Clone, Copy, Debug, PartialEq, Eq)]
pub enum Ending {
    /// As from a chain that stands still.
    Served(ServeEnd),
    /// The chain is another than the one that was told.
    Shrunk(Shrunk),
}

impl Ending {
    /// The ending's number, from 0: that of the outcome, or 7.
    pub fn number(&self) -> u8
        ensures { result ≡ ending_number self.now }
    {
        match self {
            Ending::Served(outcome) => outcome.number(),
            Ending::Shrunk(_) => 7,
        }
    }
}

impl From<ServeEnd> for Ending {
    ghost from_gives = { λ outcome e. e ≡ ServedSo outcome };

    fn from(outcome: ServeEnd) -> Ending {
        Ending::Served(outcome)
    }
}

impl From<TakeFail> for Ending {
    ghost from_gives = { λ fail e. e ≡ ending_of fail };

    fn from(fail: TakeFail) -> Ending {
        match fail {
            TakeFail::Shrunk(shrunk) => Ending::Shrunk(shrunk),
            TakeFail::NoMemory => Ending::Served(ServeEnd::NoMemory),
        }
    }
}
