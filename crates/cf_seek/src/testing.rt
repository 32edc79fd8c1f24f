//! Which filter a peer is to be asked for so that it is tested.
ghost use Rattle.std.specs.Prelude.{◌≡◌, ℕ, List, true, false, Some, None, IsSome, IfSome, length, max, ◌≤◌};
ghost use Rattle.cf_dispute.specs.{tables_of, blocks_of};
ghost use Rattle.cf_headers.specs.{own_of, IsIn};
ghost use Rattle.cf_tables.specs.{table_in, told_in};
ghost use Rattle.cf_seek.specs.Testing.{IsClaimedAs, IsExposed, IsNextTrial};
ghost use Rattle.cf_seek.specs.Tried.{AreTried, IsToTry};

use crate::known::Known;
use cf_bytes::{Hash32, PeerNo};
use cf_dispute::Claims;
use cf_headers::HeaderStore;
use cf_tables::{Tests, is_differing};

/// A block whose claimed filter is to be tested, and its height.
#[derive(Clone, Copy, Debug)]
pub struct Trial {
    /// The height at which it stands.
    pub height: u32,
    /// Its hash.
    pub block: Hash32,
}

/// What was exposed: of a block a filter that lacks what the block pays.
#[derive(Clone, Copy, Debug)]
pub struct Exposure {
    /// The block's hash.
    pub block: Hash32,
    /// The filter's hash.
    pub filter: Hash32,
}

/// Whether a peer claims this filter of a block.
pub fn is_claimed(claims: &Claims, p: PeerNo, exposure: &Exposure) -> bool
    ensures yes { result ≡ true → IsClaimedAs (tables_of claims.now) p.0 exposure.now.block.0 exposure.now.filter.0 }
    ensures no { result ≡ false
        → IsClaimedAs (tables_of claims.now) p.0 exposure.now.block.0 exposure.now.filter.0 → ⊥ }
{
    match claims.claim(p, &exposure.block) {
        Some(claim) => claim.hash == exposure.filter,
        None => false,
    }
}

// The filter that a peer claims of a block, where it was found to lack what the block pays.
fn exposed_at(claims: &Claims, tests: &Tests, p: PeerNo, block: &Hash32) -> Option<Exposure>
    ensures block { IfSome result (λ e. e.block ≡ block.now) }
    ensures is { IfSome result (λ e. IsExposed (tables_of claims.now) (told_in tests.now) p.0 e.block.0 e.filter.0) }
    ensures none { result ≡ None → (filter : List ℕ)
        → IsExposed (tables_of claims.now) (told_in tests.now) p.0 block.now.0 filter → ⊥ }
{
    let Some(claim) = claims.claim(p, block) else {
        return None;
    };
    match tests.get(block, &claim.hash) {
        Some(true) => Some(Exposure {
            block: *block,
            filter: claim.hash,
        }),
        Some(false) => None,
        None => None,
    }
}

/// One of some blocks of which a peer claims a filter that was found to lack what the block pays; nothing exactly where
/// there is none.
pub fn first_exposed(
    claims: &Claims,
    tests: &Tests,
    p: PeerNo,
    blocks: &[Hash32],
) -> Option<Exposure>
    ensures is { IfSome result (λ e. IsExposed (tables_of claims.now) (told_in tests.now) p.0 e.block.0 e.filter.0) }
    ensures among { IfSome result (λ e. IsIn e.block.0 (blocks_of blocks.now)) }
    ensures none { result ≡ None → (block : List ℕ) → IsIn block (blocks_of blocks.now) → (filter : List ℕ)
        → IsExposed (tables_of claims.now) (told_in tests.now) p.0 block filter → ⊥ }
{
    if tests.is_empty() {
        return None;
    }
    for block in blocks {
        if let Some(exposure) = exposed_at(claims, tests, p, block) {
            return Some(exposure);
        }
    }
    None
}

// Whether a block that hasn't the first block's hash was fetched, they differ on its filter, and what a peer claims of
// it wasn't tested.
fn is_to_try(known: Known, tests: &Tests, p: PeerNo, block: &Hash32) -> bool
    ensures yes { result ≡ true → IsToTry (table_in known.entry.extracts.now) (tables_of known.entry.claims.now)
        (told_in tests.now) p.0 block.now.0 }
    ensures no { result ≡ false → IsToTry (table_in known.entry.extracts.now) (tables_of known.entry.claims.now)
        (told_in tests.now) p.0 block.now.0 → ⊥ }
{
    if known.first.is(block) || !known.extracts.has(block) {
        return false;
    }
    let Some(claim) = known.claims.claim(p, block) else {
        return false;
    };
    if tests.has(block, &claim.hash) {
        return false;
    }
    is_differing(known.claims, block)
}

/// From a height up to which none of an entered peer's blocks is to be tested: the lowest above genesis and up to
/// another height that was fetched, on whose filter they differ, and of which what the peer claims wasn't tested;
/// nothing exactly where there is none. And up to where none is then.
pub fn next_trial<H: HeaderStore>(
    store: &H,
    known: Known,
    tests: &Tests,
    p: PeerNo,
    from: u32,
    common: u32,
) -> (u32, Option<Trial>)
    requires entered { IsSome (H.chain store.now p.0) }
    requires within { common ≤ length (own_of (H.chain store.now) p) }
    requires tried { AreTried (table_in known.extracts.now) (tables_of known.claims.now)
        (told_in tests.now) p.0 (own_of (H.chain store.now) p) from }
    ensures tried { AreTried (table_in known.entry.extracts.now) (tables_of known.entry.claims.now)
        (told_in tests.now) p.0 (own_of (H.chain store.now) p) result.0 }
    ensures up { from ≤ result.0 }
    ensures low { result.0 ≤ max from common }
    ensures next { IsNextTrial (table_in known.entry.extracts.now) (tables_of known.entry.claims.now)
        (told_in tests.now) p.0 (own_of (H.chain store.now) p) common result.1 }
{
    for height in from..common {
        let block = store.hash_at(p, height + 1);
        if is_to_try(known, tests, p, &block) {
            let trial = Trial {
                height: height + 1,
                block,
            };
            return (height, Some(trial));
        }
    }
    (from.max(common), None)
}
