//! Merkle roots on a lent level.
ghost use Rattle.std.specs.Prelude.{◌≡◌, ◌+◌, ◌*◌, ◌/◌, ◌++◌, ◌<◌, ◌≤◌, ℕ, length, take, map};
ghost use Rattle.cf_bytes.specs.{hash_of};
ghost use Rattle.cf_block.specs.Merkle.{next_level, has_twins as twins_of, merkle_root_of, is_mutated as mutated_in};
ghost use Rattle.cf_block.specs.Views.{bytes_of};

use cf_bytes::Hash32;
use sha2::{Digest, Sha256};

// What one pass over a tree tells.
#[derive(Clone, Copy)]
pub(crate) struct Tree {
    pub root: Hash32,
    // Whether a level has a pair of equal hashes that are both really there.
    pub is_doubled: bool,
}

/// The root of the Merkle tree over a level of hashes (Bitcoin developer reference, "Merkle Trees"): the hashes are
/// joined in pairs, an odd last one with itself, and each pair is replaced by its hash, until one is left. The level
/// holds at least one hash, and is spent. It takes no memory.
pub fn merkle_root(level: &mut [Hash32]) -> Hash32
    requires { 0 < length level.old }
    ensures { result.0 ≡ merkle_root_of (bytes_of level.old) }
{
    tree_over(level).root
}

/// Whether a level or one above it has a pair of equal hashes that are both really there, so that another list has
/// the same root. The level holds at least one hash, and is spent. It takes no memory.
pub fn is_mutated(level: &mut [Hash32]) -> bool
    requires { 0 < length level.old }
    ensures { result ≡ mutated_in (bytes_of level.old) }
{
    tree_over(level).is_doubled
}

// Both at once: the root, and whether another list has it. The level is spent.
pub(crate) fn tree_over(level: &mut [Hash32]) -> Tree
    requires { 0 < length level.old }
    ensures root { result.root.0 ≡ merkle_root_of (bytes_of level.old) }
    ensures doubled { result.is_doubled ≡ mutated_in (bytes_of level.old) }
{
    let mut n = level.len();
    let mut is_doubled = false;
    while n > 1 {
        is_doubled |= has_twins(&level[..n]);
        halve(level, n);
        n = n.div_ceil(2);
    }
    Tree {
        root: level[0],
        is_doubled,
    }
}

// The first n hashes' next level takes their place.
fn halve(level: &mut [Hash32], n: usize)
    requires { n ≤ length level.old }
    ensures { bytes_of (take ((n + 1) / 2) level.new) ≡ next_level (bytes_of (take n level.old)) }
{
    for i in 0..n / 2 {
        let left = level[2 * i];
        let right = level[2 * i + 1];
        let hash = join(left, right);
        level[i] = hash;
    }
    if n % 2 == 0 {
        return;
    }
    let last = level[n - 1];
    let hash = join(last, last);
    level[n / 2] = hash;
}

fn has_twins(level: &[Hash32]) -> bool
    ensures { result ≡ twins_of (bytes_of level.now) }
{
    let mut rest = level;
    while let [a, b, others @ ..] = rest {
        if *a == *b {
            return true;
        }
        rest = others;
    }
    false
}

// The hash of two hashes' 64 bytes.
#[tactic(auto, unfolding(cf_bytes::specs::Hash::hash_of))]
fn join(a: Hash32, b: Hash32) -> Hash32
    ensures { result.0 ≡ hash_of (a.0 ++ b.0) }
{
    let mut hasher = Sha256::new();
    hasher.update(a.0.as_slice());
    hasher.update(b.0.as_slice());
    Hash32(Sha256::digest(&hasher.finalize()))
}
