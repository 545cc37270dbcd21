//! Names by the places of a list.

ghost use Rattle.std.specs.Prelude.{◌≡◌, ◌<◌, ◌++◌, All, IfOk, IsSome, codes};
ghost use Rattle.rdf_terms.specs.CanonicalForm.{issued_name, place_of, prefix_text};
ghost use Rattle.rdf_terms.specs.Lists.{AreDistinct};

use crate::names::{Names, push_numbered};
use rdf_terms::{NoMemory, Prefix};
use std::alloc::Global;
use std::marker::Model;

/// Names each node of a list by a prefix and its place in the list, counted from 0 (RDF Dataset
/// Canonicalization, section 4.5). A node outside the list has no name.
#[derive(Drop)]
pub struct ListNames<'a> {
    list: &'a [u32],
    prefix: Prefix,
    // The place of each node of the list, by the number of the node.
    places: Vec<u32>,
}

impl<'a> Model for ListNames<'a> {
    ghost use Rattle.canonical_writer.specs.Places.{NamedList, TellsPlaces};

    ghost Value = { NamedList };

    ghost view = { λ names. record { list = names.list.now; prefix = names.prefix } };

    ghost invariant = { λ names. TellsPlaces names.list.now names.places.items };
}

impl<'a> ListNames<'a> {
    /// The table that it makes has four bytes for each number up to the largest of the list.
    pub fn new(alloc: Global, list: &'a [u32], prefix: Prefix) -> Result<Self, NoMemory>
        requires { AreDistinct list.now }
        ensures { IfOk result (λ names. names ≡ record { list = list.now; prefix = prefix }) }
    {
        let mut places = vec![in alloc; 0u32; past_largest(list)]?;
        for (place, node) in list.iter().enumerate() {
            places[*node as usize] = place as u32;
        }
        Ok(ListNames {
            list,
            prefix,
            places,
        })
    }

    fn place(&self, node: u32) -> u32
        requires { IsSome (place_of self.now.list node) }
        ensures { place_of self.now.list node ≡ Some result }
    {
        self.places[node as usize]
    }
}

impl Names for ListNames<'_> {
    ghost name = { λ names. issued_name names.prefix names.list };

    fn push_name(&self, node: u32, out: &mut Vec<u8>) -> Result<(), NoMemory> {
        push_numbered(out, label_start(self.prefix), self.place(node))
    }
}

fn label_start(prefix: Prefix) -> &'static [u8]
    ensures { result.now ≡ codes "_:" ++ prefix_text prefix }
{
    match prefix {
        Prefix::Canonical => b"_:c14n",
        Prefix::Temporary => b"_:b",
    }
}

// One more than the largest number of the list, and 0 where it is empty.
fn past_largest(list: &[u32]) -> usize
    ensures { All (λ n. n < result) list.now }
{
    let mut bound = 0;
    for number in list {
        bound = bound.max(*number as usize + 1);
    }
    bound
}
