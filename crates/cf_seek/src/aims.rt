//! Whether what peers were asked for last is to be tested.
ghost use Rattle.std.specs.Prelude.{◌≡◌, ◌≢◌, ◌≤◌, ℕ, false, IfOk, vec_len};

use crate::spans::Wish;
use cf_bytes::{NoMemory, PLACES, PeerNo};
use std::alloc::Global;

/// Of up to eight peers, whether the filters that a peer was asked for last are to be tested.
#[derive(Drop)]
pub struct Aims {
    places: Vec<bool>,
    ghost nine: { vec_len places ≡ 9 },
}

impl Aims {
    ghost use Rattle.cf_seek.specs.Aims.{IsAimed, aims_in};

    /// Nobody was asked for anything that is to be tested.
    pub fn new(alloc: Global) -> Result<Aims, NoMemory>
        ensures { IfOk result (λ a. (p : ℕ) → aims_in a p ≡ false) }
    {
        Ok(Aims {
            places: vec![in alloc; false; PLACES]?,
        })
    }

    /// Whether the filters that a peer was asked for last are to be tested.
    pub fn of(&self, p: PeerNo) -> bool
        ensures { result ≡ aims_in self.now p.0 }
    {
        self.places.get(p.0 as usize).copied().unwrap_or(false)
    }

    /// Notes a question that is put to a peer with a number up to 8. It takes no memory.
    pub fn note(&mut self, p: PeerNo, wish: &Wish)
        requires { p.0 ≤ 8 }
        ensures { IsAimed p.0 wish.now (aims_in self.old) (aims_in self.new) }
    {
        match wish {
            Wish::Filters(_) => self.set(p, false),
            Wish::Test(_) => self.set(p, true),
            Wish::Nothing => {}
            Wish::Claims(_) => {}
            Wish::Block(_) => {}
        }
    }

    // Whether the filters that a peer was asked for last are to be tested is this from now on.
    fn set(&mut self, p: PeerNo, aim: bool)
        requires { p.0 ≤ 8 }
        ensures here { aims_in self.new p.0 ≡ aim }
        ensures others { (q : ℕ) → q ≢ p.0 → aims_in self.new q ≡ aims_in self.old q }
    {
        self.places[p.0 as usize] = aim;
    }
}
