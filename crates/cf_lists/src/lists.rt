//! A store that keeps each peer's chain as a list of its own.
ghost use Rattle.std.specs.Prelude.{◌≡◌, ℕ, ◌<◌, vec_len};
ghost use Rattle.cf_lists.specs.Lists.{AreCommons};

use crate::kept::KeptChain;
use crate::slot::Slot;
use crate::table::renew;
use cf_block::Header;
use cf_bytes::{Hash32, NoMemory, PLACES, PeerNo};
use cf_headers::{Change, HeaderStore};
use std::alloc::Global;

/// Each peer's chain as a list of its own, and the common heights of each two. To look a hash up goes along the chain;
/// to look a height or a common height up doesn't.
#[derive(Drop)]
pub struct Lists {
    alloc: Global,
    slots: Vec<Slot>,
    commons: Vec<u32>,
    ghost nine: { vec_len slots ≡ 9 },
    ghost all: { vec_len commons ≡ 81 },
    ghost told: { AreCommons slots.items commons.items },
}

impl Lists {
    ghost use Rattle.std.specs.Prelude.{IfOk, [], Some, None, if◌then◌else◌};
    ghost use Rattle.cf_lists.specs.Lists.{chains_in};
    ghost use Rattle.cf_headers.specs.{Puts};

    /// A store in which no peer is entered.
    pub fn new(alloc: Global) -> Result<Lists, NoMemory>
        ensures { IfOk result (λ s. (q : ℕ) → chains_in s.slots.items q ≡ None) }
    {
        let mut slots = Vec::with_capacity(alloc, PLACES)?;
        for i in 0..PLACES {
            slots.push(Slot {
                entered: false,
                chain: KeptChain::new(alloc),
            })?;
        }
        let commons = vec![in alloc; 0; PLACES * PLACES]?;
        Ok(Lists {
            alloc,
            slots,
            commons,
        })
    }

    // Gives a place the chain of genesis alone.
    fn reset(&mut self, p: PeerNo, entered: bool)
        requires { p.0 < 9 }
        ensures { Puts (chains_in self.old.slots.items)
            (chains_in self.new.slots.items) p (if entered then Some [] else None) }
    {
        let place = p.0 as usize;
        let chain = KeptChain::new(self.alloc);
        self.slots[place] = Slot { entered, chain };
        renew(&mut self.commons, &self.slots, place, 0);
    }
}

impl HeaderStore for Lists {
    ghost use Rattle.cf_lists.specs.Lists.{chains_in};
    ghost use Rattle.cf_headers.specs.{CountsEach};

    ghost chain = { λ s. chains_in s.slots.items };

    ghost counts = { CountsEach };

    fn enter(&mut self, p: PeerNo) -> Result<(), NoMemory> {
        self.reset(p, true);
        Ok(())
    }

    #[tactic(auto, using(crate::proofs::Slots::same_chain))]
    fn accept(&mut self, p: PeerNo, headers: &[Header]) -> Result<Change, NoMemory> {
        let alloc = self.alloc;
        let place = p.0 as usize;
        let change = self.slots[place].chain.accept(alloc, headers)?;
        if let Change::Longer(k) = change {
            renew(&mut self.commons, &self.slots, place, k);
        }
        Ok(change)
    }

    fn height(&self, p: PeerNo) -> u32 {
        self.slots[p.0 as usize].chain.height()
    }

    fn hash_at(&self, p: PeerNo, h: u32) -> Hash32 {
        self.slots[p.0 as usize].chain.hash_at(h)
    }

    fn place(&self, p: PeerNo, hash: &Hash32) -> Option<u32> {
        self.slots[p.0 as usize].chain.place(hash)
    }

    fn common(&self, p: PeerNo, q: PeerNo) -> u32 {
        self.commons[PLACES * p.0 as usize + q.0 as usize]
    }

    #[tactic(auto, using(cf_headers::proofs::Places::bests))]
    fn best(&self) -> Option<PeerNo> {
        let mut best = None;
        let mut most: u32 = 0;
        for (i, slot) in self.slots.iter().enumerate() {
            if slot.entered && slot.chain.height() >= most {
                most = slot.chain.height() + 1;
                best = Some(PeerNo(i as u32));
            }
        }
        best
    }

    fn forget(&mut self, p: PeerNo) {
        if (p.0 as usize) < PLACES {
            self.reset(p, false);
        }
    }

    #[tactic(auto, using(crate::proofs::Totals::more_height, crate::proofs::Totals::no_height))]
    fn held(&self) -> u64 {
        let mut total: u64 = 0;
        for i in 0..PLACES {
            let slot = &self.slots[i];
            if slot.entered {
                total += slot.chain.height() as u64;
            }
        }
        total
    }
}
