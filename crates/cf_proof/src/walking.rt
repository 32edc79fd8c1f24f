//! The walk through a partial Merkle tree.
ghost use Rattle.std.specs.Prelude.{◌≡◌, ◌+◌, ◌*◌, ◌≤◌, ◌<◌, ◌^◌, ◌++◌, ◌∷◌, ◌||◌, [], MatchOption, Some, None, nat_eq, Bool};
ghost use Rattle.std.specs.List.{flat_map};
ghost use Rattle.std.specs.Cmp.Lexicographic.{pointwise};
ghost use Rattle.cf_bytes.specs.{hash_of};
ghost use Rattle.cf_block.specs.{bytes_of};
ghost use Rattle.cf_proof.specs.Tree.{height_of as root_height, is_there as is_node};
ghost use Rattle.cf_proof.specs.Walk.{walk as walk_from, with_hash as node_with_hash};
ghost use Rattle.cf_proof.specs.Steps.{IsNodeOf};

use cf_bytes::Hash32;
use sha2::{Digest, Sha256};

/// What the walk through the nodes below one node gives, and the bits and hashes that are left.
#[derive(Clone, Copy)]
pub(crate) struct Node<'a> {
    pub(crate) hash: Hash32,
    // Two children that are both there are equal.
    pub(crate) twins: bool,
    // The hash that is looked for is that of a matched leaf.
    pub(crate) found: bool,
    pub(crate) bits: &'a [bool],
    pub(crate) hashes: &'a [Hash32],
}

// The walk from a node on, in a tree over so many leaves, and whether this hash is matched; none where a bit or a hash
// is missing.
#[tactic(auto, unfolding(crate::specs::Walk::walk))]
pub(crate) fn walk<'a>(
    total: u32,
    txid: &Hash32,
    height: u32,
    place: u32,
    bits: &'a [bool],
    hashes: &'a [Hash32],
) -> Option<Node<'a>>
    requires few { total ≤ 16666 }
    requires low { height ≤ 15 }
    requires there { place * 2 ^ height < total }
    ensures { MatchOption result (walk_from total height place bits.now (bytes_of hashes.now) ≡ None)
        (λ n. IsNodeOf txid.now.0 (walk_from total height place bits.now (bytes_of hashes.now))
        n.hash.0 n.twins n.found n.bits.now (bytes_of n.hashes.now)) }
{
    let [bit, bits @ ..] = bits else { return None };
    if height == 0 {
        return with_hash(txid, *bit, bits, hashes);
    }
    if !*bit {
        return with_hash(txid, false, bits, hashes);
    }
    let left = match walk(total, txid, height - 1, 2 * place, bits, hashes) {
        None => return None,
        Some(left) => left,
    };
    if !is_there(total, height - 1, 2 * place + 1) {
        return Some(with_left(left));
    }
    match walk(
        total,
        txid,
        height - 1,
        2 * place + 1,
        left.bits,
        left.hashes,
    ) {
        None => None,
        Some(right) => Some(with_both(left, right)),
    }
}

// Whether a leaf stands below a node.
pub(crate) fn is_there(total: u32, height: u32, place: u32) -> bool
    requires low { height ≤ 15 }
    requires few { place ≤ 65536 }
    ensures { result ≡ is_node total height place }
{
    place * (1 << height) < total
}

// A node that takes a hash.
#[tactic(auto, unfolding(crate::specs::Walk::with_hash))]
fn with_hash<'a>(
    txid: &Hash32,
    matched: bool,
    bits: &'a [bool],
    hashes: &'a [Hash32],
) -> Option<Node<'a>>
    ensures { MatchOption result (node_with_hash matched bits.now (bytes_of hashes.now) ≡ None)
        (λ n. IsNodeOf txid.now.0 (node_with_hash matched bits.now (bytes_of hashes.now))
        n.hash.0 n.twins n.found n.bits.now (bytes_of n.hashes.now)) }
{
    match hashes {
        [] => None,
        [hash, rest @ ..] => Some(Node {
            hash: *hash,
            twins: false,
            found: matched && *txid == *hash,
            bits,
            hashes: rest,
        }),
    }
}

// A node with two children.
fn with_both<'a>(left: Node<'a>, right: Node<'a>) -> Node<'a>
    ensures hash { result.hash.0 ≡ hash_of (left.entry.hash.0 ++ right.entry.hash.0) }
    ensures twins { result.twins
        ≡ (pointwise nat_eq left.entry.hash.0 right.entry.hash.0 || (left.entry.twins || right.entry.twins)) }
    ensures found { result.found ≡ (left.entry.found || right.entry.found) }
    ensures bits { result.bits.now ≡ right.entry.bits.now }
    ensures hashes { result.hashes.now ≡ right.entry.hashes.now }
{
    Node {
        hash: join(&left.hash, &right.hash),
        twins: left.hash == right.hash || left.twins || right.twins,
        found: left.found || right.found,
        bits: right.bits,
        hashes: right.hashes,
    }
}

// A node whose right child is the left one again.
fn with_left<'a>(left: Node<'a>) -> Node<'a>
    ensures hash { result.hash.0 ≡ hash_of (left.entry.hash.0 ++ left.entry.hash.0) }
    ensures twins { result.twins ≡ left.entry.twins }
    ensures found { result.found ≡ left.entry.found }
    ensures bits { result.bits.now ≡ left.entry.bits.now }
    ensures hashes { result.hashes.now ≡ left.entry.hashes.now }
{
    Node {
        hash: join(&left.hash, &left.hash),
        twins: left.twins,
        found: left.found,
        bits: left.bits,
        hashes: left.hashes,
    }
}

// The hash of two hashes' 64 bytes.
#[tactic(auto, unfolding(cf_bytes::specs::Hash::hash_of))]
pub(crate) fn join(a: &Hash32, b: &Hash32) -> Hash32
    ensures { result.0 ≡ hash_of (a.now.0 ++ b.now.0) }
{
    let mut hasher = Sha256::new();
    hasher.update(a.0.as_slice());
    hasher.update(b.0.as_slice());
    Hash32(Sha256::digest(&hasher.finalize()))
}

// The height of the root over so many leaves.
pub(crate) fn height_of(total: u32) -> u32
    requires { total ≤ 16666 }
    ensures value { result ≡ root_height total }
    ensures low { result ≤ 15 }
{
    let mut height = 0;
    let mut n = total;
    while n > 1 {
        n = n.div_ceil(2);
        height += 1;
    }
    height
}
