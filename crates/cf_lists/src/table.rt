//! The common heights of each two places' chains.
ghost use Rattle.std.specs.Prelude.{◌≡◌, ◌≤◌, ◌<◌, length, vec_len};
ghost use Rattle.cf_headers.specs.{common_of};
ghost use Rattle.cf_lists.specs.Lists.{IsCommonUpTo, AreCommons, AreCommonsBut, IsRowUpTo};

use crate::kept::KeptChain;
use crate::slot::Slot;
use cf_bytes::PLACES;

// The common height of two chains, where it is known up to height k.
#[tactic(auto, using(cf_headers::proofs::Commons::common_symm))]
fn common_height(mine: &KeptChain, theirs: &KeptChain, known: u32, k: u32) -> u32
    requires { IsCommonUpTo k known mine.now theirs.now }
    ensures { result ≡ common_of mine.now theirs.now }
{
    if known < k {
        known
    } else {
        mine.common_above(theirs, k)
    }
}

/// Writes the common heights of p's chain with each other, where p's chain has stayed the same up to height k, and the
/// heights are still those from before. To do so goes along the headers above k.
pub(crate) fn renew(commons: &mut Vec<u32>, slots: &[Slot], p: usize, k: u32)
    requires nine { length slots.now ≡ 9 }
    requires all { vec_len commons.old ≡ 81 }
    requires place { p < 9 }
    requires others { AreCommonsBut p slots.now commons.old.items }
    requires row { IsRowUpTo k p slots.now commons.old.items }
    ensures all { vec_len commons.new ≡ 81 }
    ensures told { AreCommons slots.now commons.new.items }
{
    for q in 0..PLACES {
        let known = commons[PLACES * p + q];
        let height = common_height(&slots[p].chain, &slots[q].chain, known, k);
        commons[PLACES * p + q] = height;
        commons[PLACES * q + p] = height;
    }
}
