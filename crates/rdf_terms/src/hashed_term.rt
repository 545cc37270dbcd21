//! Terms with their hashes, as a table holds them and looks for them.
ghost use Rattle.std.specs.Prelude.{◌≡◌};
ghost use Rattle.std.specs.Hash as fed;
ghost use Rattle.rdf_terms.specs.HashedTerm.{hashed, hashed_ref, hashed_of};
ghost use Rattle.rdf_terms.specs.FedAlike.{entries_fed_alike, references_fed_alike, fed_as_entry};
ghost use Rattle.rdf_terms.specs.contracts.hashed_term.HashedTermPartialEq.TheImpl.{eq-value as eq_hashed};
ghost use Rattle.rdf_terms.specs.contracts.hashed_term.HashedTermEq.TheImpl.Laws.{laws-law as hashed_law};

use crate::lookup_hash::lookup_hash;
use crate::{Term, TermRef};
use indexmap::Equivalent;
use std::hash::{Hash, Hasher, RandomState};

// A term with its hash under the keys of its table.
#[derive(PartialEq, Eq, Drop)]
pub(crate) struct HashedTerm {
    pub(crate) hash: u64,
    pub(crate) term: Term,
}

// The same by reference.
#[derive(Clone, Copy, PartialEq, Eq)]
pub(crate) struct HashedTermRef<'a> {
    hash: u64,
    term: TermRef<'a>,
}

impl HashedTerm {
    pub(crate) fn new(keys: RandomState, term: Term) -> Self
        ensures { result ≡ hashed keys term }
    {
        let hash = lookup_hash(keys, term.as_ref());
        HashedTerm { hash, term }
    }
}

impl<'a> HashedTermRef<'a> {
    pub(crate) fn new(keys: RandomState, term: TermRef<'a>) -> Self
        ensures { result ≡ hashed_ref keys term.entry }
    {
        let hash = lookup_hash(keys, term);
        HashedTermRef { hash, term }
    }

    // A node under the same hash: the term itself, where it is a node.
    #[inline]
    pub(crate) fn as_node(&self) -> HashedTermRef<'a> {
        HashedTermRef {
            hash: self.hash,
            term: TermRef::Blank((self.hash & 0xFFFF_FFFF) as u32),
        }
    }
}

impl Hash for HashedTerm {
    ghost hash_input = { λ h. fed.u64 h.hash };

    ghost respects_eq = { entries_fed_alike };

    #[inline]
    fn hash<H: Hasher>(&self, state: &mut H) {
        state.write_u64(self.hash);
    }
}

impl Hash for HashedTermRef<'_> {
    ghost hash_input = { λ h. fed.u64 h.hash };

    ghost respects_eq = { references_fed_alike };

    #[inline]
    fn hash<H: Hasher>(&self, state: &mut H) {
        state.write_u64(self.hash);
    }
}

impl Equivalent<HashedTerm> for HashedTermRef<'_> {
    ghost equivalent = { λ q k. eq_hashed.it (hashed_of q) k };

    ghost respects_hash = { fed_as_entry };

    ghost respects_eq = { λ q. hashed_law.congr (hashed_of q) };

    #[inline]
    fn equivalent(&self, key: &HashedTerm) -> bool {
        self.hash == key.hash && self.term.is(&key.term)
    }
}
