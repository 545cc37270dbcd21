//! Nodes that are put in the order of their hashes. Nearly all hashes differ in their first eight bytes, which stand
//! beside the hash as one number.
ghost use Rattle.std.specs.Prelude.{◌≡◌, []};
ghost use Rattle.std.specs.Ordering.{nat_cmp};
ghost use Rattle.std.specs.Cmp.Lexicographic.{slice_cmp};
ghost use Rattle.std.specs.Str.{bytes_eq};
ghost use Rattle.canon_core.specs.HashOrder.{node_cmp};

use canon_model::HexHash;
use canonical_writer::eight_bytes;
use std::cmp::Ordering;
use std::marker::Model;

// A node with its hash. Two compare by the first eight bytes of their hashes, and only where these are equal by a
// look at the hashes, which lie far apart in memory.
#[derive(Drop)]
pub(crate) struct HashedNode<'a> {
    first_eight: u64,
    hash: &'a HexHash,
    node: u32,
}

impl<'a> Model for HashedNode<'a> {
    ghost use Rattle.std.specs.Prelude.{ℕ, []};
    ghost use Rattle.rdf_terms.specs.Lists.{Text};
    ghost use Rattle.canonical_writer.specs.KeyNumbers.{AreEightBytes};

    ghost Value = { Text × ℕ };

    ghost view = { λ n. (n.hash.now, n.node) };

    ghost invariant = { λ n. AreEightBytes [] n.hash.now n.first_eight };
}

impl<'a> HashedNode<'a> {
    pub(crate) fn new(hash: &'a HexHash, node: u32) -> Self
        ensures { result ≡ (hash.now, node) }
    {
        HashedNode {
            first_eight: eight_bytes(hash.as_bytes(), b""),
            hash,
            node,
        }
    }

    pub(crate) fn node(&self) -> u32
        ensures { result ≡ self.now.1 }
    {
        self.node
    }

    // How the hashes compare, as texts.
    fn compare_hashes(&self, other: &Self) -> Ordering
        ensures { result ≡ slice_cmp nat_cmp self.now.0 other.now.0 }
    {
        (self.first_eight, self.hash).cmp(&(other.first_eight, other.hash))
    }

    // Whether both have one hash.
    pub(crate) fn has_hash_of(&self, other: &Self) -> bool
        ensures { result ≡ bytes_eq self.now.0 other.now.0 }
    {
        self.compare_hashes(other).is_eq()
    }

    // By the hashes, and by the numbers of the nodes where these are equal.
    pub(crate) fn compare(&self, other: &Self) -> Ordering
        ensures { result ≡ node_cmp self.now other.now }
    {
        self.compare_hashes(other).then(self.node.cmp(&other.node))
    }
}
