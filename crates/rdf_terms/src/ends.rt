//! The subjects and objects of some quads, looked up side by side.
ghost use Rattle.std.specs.Prelude.{◌≡◌, map, IfOk};
ghost use Rattle.rdf_terms.specs.Ends.{ends_of, places_in};

use crate::hashed_term::{HashedTerm, HashedTermRef};
use crate::{NoMemory, StatementRef};
use indexmap::IndexSet;
use std::alloc::Global;
use std::hash::RandomState;

// The subject and the object of a statement, with their hashes.
#[derive(Clone, Copy)]
pub(crate) struct HashedEnds<'a> {
    subject: HashedTermRef<'a>,
    object: HashedTermRef<'a>,
}

// The numbers of a statement's subject and object, where the table has them.
#[derive(Clone, Copy)]
pub(crate) struct KnownEnds {
    pub(crate) subject: Option<usize>,
    pub(crate) object: Option<usize>,
}

impl<'a> HashedEnds<'a> {
    pub(crate) fn new(keys: RandomState, quad: &StatementRef<'a>) -> Self
        ensures { result ≡ ends_of keys quad.now }
    {
        HashedEnds {
            subject: HashedTermRef::new(keys, quad.subject),
            object: HashedTermRef::new(keys, quad.object),
        }
    }

    #[inline]
    pub(crate) fn find(&self, terms: &IndexSet<HashedTerm>) -> KnownEnds
        ensures { result ≡ places_in terms.now.keys self.now }
    {
        KnownEnds {
            subject: terms.get_index_of(self.subject),
            object: terms.get_index_of(self.object),
        }
    }
}

fn hashed_ends<'a>(
    alloc: Global,
    keys: RandomState,
    quads: &[StatementRef<'a>],
) -> Result<Vec<HashedEnds<'a>>, NoMemory>
    ensures { IfOk result (λ ends. ends.items ≡ map (ends_of keys) quads.now) }
{
    let mut ends = Vec::with_capacity(alloc, quads.len())?;
    for quad in quads {
        ends.push(HashedEnds::new(keys, quad))?;
    }
    Ok(ends)
}

// How many of these ends the table may lack: all but the nodes that are found.
fn count_new(terms: &IndexSet<HashedTerm>, ends: &[HashedEnds<'_>]) -> usize {
    let mut count = 0usize;
    for ends in ends {
        count = count
            .wrapping_add(!terms.contains(ends.subject.as_node()) as usize)
            .wrapping_add(!terms.contains(ends.object.as_node()) as usize);
    }
    count
}

// Makes room for those of these ends that the table may lack.
//
// To count them, each hash is looked for as that of a node, which looks at all entries that may
// have the hash. Such a look is short and does not wait for the one before it, so that the memory
// of many is fetched at a time. When the ends are looked up, what they need is at hand.
fn make_room(terms: &mut IndexSet<HashedTerm>, ends: &[HashedEnds<'_>]) -> Result<(), NoMemory>
    ensures { terms.new.keys ≡ terms.old.keys }
{
    let count = count_new(terms, ends);
    terms.reserve(count)?;
    Ok(())
}

// One look-up stands close behind the other, so that the memory of several is waited for at once.
fn find_all(
    alloc: Global,
    terms: &IndexSet<HashedTerm>,
    ends: &[HashedEnds<'_>],
) -> Result<Vec<KnownEnds>, NoMemory>
    ensures { IfOk result (λ known. known.items ≡ map (places_in terms.now.keys) ends.now) }
{
    Ok(ends.iter().map(|ends| ends.find(terms)).collect(alloc)?)
}

// The places of the ends of these quads, where the table has them under these keys. Where it may
// lack some, it has room for them.
pub(crate) fn find_ends(
    alloc: Global,
    keys: RandomState,
    terms: &mut IndexSet<HashedTerm>,
    quads: &[StatementRef<'_>],
) -> Result<Vec<KnownEnds>, NoMemory>
    ensures known { IfOk result (λ known. known.items ≡ map (places_in terms.old.keys) (map (ends_of keys) quads.now)) }
    ensures same { terms.new.keys ≡ terms.old.keys }
{
    let ends = hashed_ends(alloc, keys, quads)?;
    make_room(terms, &ends)?;
    find_all(alloc, terms, &ends)
}
