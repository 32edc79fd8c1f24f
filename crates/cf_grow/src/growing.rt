//! What a server has whose chain grows, and each of its connections.
ghost use Rattle.std.specs.Prelude.{◌≡◌, IfOk};
ghost use Rattle.cf_grow.specs.GrowingService.{IsServedWhileGrowing};
ghost use Rattle.cf_grow.specs.Standing.{tip_of};

use crate::{Grown, Joins, Keeper, Tip, serve_grown};
use cf_bytes::NoMemory;
use cf_conn::Duplex;
use cf_index::Index;
use cf_link::Service;
use std::alloc::Global;
use std::marker::Model;
use std::sync::{Arc, Mutex, Wait};

/// The serving machine over a chain that grows, which all shares lock, and whoever is told of each block that joins it,
/// once its record is kept.
/// Contracts see the time and the nonce of its `version`, and the tip of the chain that it began with.
#[derive(Drop)]
pub struct GrowingServer<R: Wait + Copy, J: Joins + Copy, K: Keeper + Drop> {
    rt: R,
    alloc: Global,
    grown: Arc<Mutex<Grown<K>>, Global>,
    joins: J,
    moment: i64,
    nonce: u64,
    first: Tip,
}

impl<R: Wait + Copy, J: Joins + Copy, K: Keeper + Drop> Model for GrowingServer<R, J, K> {
    ghost use Rattle.cf_grow.specs.GrowingService.{Moment};

    ghost Value = { Moment };

    ghost view = { λ s. record { moment = s.moment; nonce = s.nonce; tip = s.first } };
}

impl<R: Wait + Copy, J: Joins + Copy, K: Keeper + Drop> GrowingServer<R, J, K> {
    /// A server that begins with this chain, whose coins are found now, and which so many bytes of blocks may join,
    /// whose records the keeper keeps. Its `version` tells the time in seconds since 1970 and the nonce.
    pub fn new(
        rt: R,
        alloc: Global,
        index: Index,
        joins: J,
        room: u64,
        keeper: K,
        moment: i64,
        nonce: u64,
    ) -> Result<GrowingServer<R, J, K>, NoMemory>
        ensures { IfOk result (λ s. s ≡ record { moment = moment; nonce = nonce; tip = tip_of index }) }
    {
        let first = Tip::of(&index);
        let mut index = index;
        index.find_coins(alloc)?;
        let grown = Arc::new(alloc, Mutex::new(Grown::new(alloc, index, room, keeper)))?;
        Ok(GrowingServer {
            rt,
            alloc,
            grown,
            joins,
            moment,
            nonce,
            first,
        })
    }
}

impl<R: Wait + Copy, J: Joins + Copy, K: Keeper + Drop> Service for GrowingServer<R, J, K> {
    ghost serves = { λ s before how after. IsServedWhileGrowing s before how after };

    fn share(&self) -> Result<GrowingServer<R, J, K>, NoMemory> {
        let grown = Arc::try_clone(&self.grown)?;
        Ok(GrowingServer {
            rt: self.rt,
            alloc: self.alloc,
            grown,
            joins: self.joins,
            moment: self.moment,
            nonce: self.nonce,
            first: self.first,
        })
    }

    fn serve<C: Duplex>(&self, conn: &mut C) -> u8 {
        serve_grown(
            &self.rt,
            self.alloc,
            &self.grown,
            &self.joins,
            conn,
            self.moment,
            self.nonce,
            self.first,
        )
        .number()
    }
}
