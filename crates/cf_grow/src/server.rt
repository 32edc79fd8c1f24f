//! What a server has, and each of its connections.
ghost use Rattle.std.specs.Prelude.{◌≡◌, IfOk};
ghost use Rattle.cf_grow.specs.Service.{IsServedBy};

use cf_bytes::NoMemory;
use cf_conn::Duplex;
use cf_index::Index;
use cf_link::Service;
use cf_server::serve_one;
use std::alloc::Global;
use std::marker::Model;
use std::sync::Arc;

/// The serving machine over the index of a chain. Contracts see the chain's blocks, and the time and the nonce of its
/// `version`.
#[derive(Drop)]
pub struct Server {
    alloc: Global,
    index: Arc<Index, Global>,
    moment: i64,
    nonce: u64,
}

impl Model for Server {
    ghost use Rattle.std.specs.Arc.{arc_value};
    ghost use Rattle.cf_grow.specs.Service.{Machine};

    ghost Value = { Machine };

    ghost view = { λ s. record { blocks = arc_value s.index; moment = s.moment; nonce = s.nonce } };
}

impl Server {
    /// A server of this chain. Its `version` tells the time in seconds since 1970 and the nonce.
    pub fn new(alloc: Global, index: Index, moment: i64, nonce: u64) -> Result<Server, NoMemory>
        ensures { IfOk result (λ s. s ≡ record { blocks = index; moment = moment; nonce = nonce }) }
    {
        let index = Arc::new(alloc, index)?;
        Ok(Server {
            alloc,
            index,
            moment,
            nonce,
        })
    }
}

impl Service for Server {
    ghost serves = { λ s before how after. IsServedBy s before how after };

    fn share(&self) -> Result<Server, NoMemory> {
        let index = Arc::try_clone(&self.index)?;
        Ok(Server {
            alloc: self.alloc,
            index,
            moment: self.moment,
            nonce: self.nonce,
        })
    }

    fn serve<C: Duplex>(&self, conn: &mut C) -> u8 {
        serve_one(self.alloc, &self.index, conn, self.moment, self.nonce).number()
    }
}
