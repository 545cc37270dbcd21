//! Identifiers for nodes, in the order in which they are asked for.

ghost use Rattle.std.specs.Prelude.{◌≡◌, ◌<◌, ◌≤◌, ◌++◌, [], take, length, All, IfOk, OnOk, OnErr};
ghost use Rattle.rdf_terms.specs.Lists.{AreDistinct};
ghost use Rattle.rdf_terms.specs.CanonicalForm.{place_of};
ghost use Rattle.id_issuer.specs.IssuedList.{list_with};

use indexmap::IndexSet;
use rdf_terms::{NoMemory, Prefix};
use std::alloc::Global;
use std::marker::Model;

/// An identifier issuer (RDF Dataset Canonicalization, section 4.3): a prefix, and the nodes that
/// have an identifier in the order in which they got it.
#[derive(Drop)]
pub struct Issuer {
    prefix: Prefix,
    nodes: IndexSet<u32>,
}

impl Model for Issuer {
    ghost use Rattle.std.specs.Prelude.{◌<◌, ◌≤◌, length, All};
    ghost use Rattle.rdf_terms.specs.declared.limits.TheConstants.{MOST_NUMBERS};
    ghost use Rattle.id_issuer.specs.IssuedList.{IssuedList};

    ghost Value = { IssuedList };

    ghost view = { λ i. record { prefix = i.prefix; list = i.nodes.keys } };

    ghost invariant = { λ i. (length i.nodes.keys ≤ MOST_NUMBERS) × All (λ n. n < MOST_NUMBERS) i.nodes.keys };
}

/// How long the list of an issuer was at some time.
#[derive(Clone, Copy, Debug, PartialEq, Eq)]
pub struct Mark {
    pub length: u32,
}

impl Issuer {
    /// An issuer that has issued nothing.
    pub fn new(alloc: Global, prefix: Prefix) -> Self
        ensures prefix { result.prefix ≡ prefix }
        ensures list { result.list ≡ [] }
    {
        Issuer {
            prefix,
            nodes: IndexSet::new(alloc),
        }
    }

    pub fn prefix(&self) -> Prefix
        ensures { result ≡ self.now.prefix }
    {
        self.prefix
    }

    /// The nodes that have an identifier, in the order in which they got it.
    pub fn list(&self) -> &[u32]
        ensures list { result.now ≡ self.now.list }
        ensures distinct { AreDistinct self.now.list }
        ensures in_range { All (λ n. n < u32.MAX) self.now.list }
        ensures fits { length self.now.list ≤ u32.MAX }
    {
        self.nodes.as_slice()
    }

    /// Issues an identifier for a node (RDF Dataset Canonicalization, section 4.5), and answers its
    /// place: the one that the node has already, else the next.
    pub fn issue(&mut self, node: u32) -> Result<u32, NoMemory>
        requires { node < u32.MAX }
        ensures place { IfOk result (λ place. place_of self.new.list node ≡ Some place) }
        ensures list { OnOk result (self.new.list ≡ list_with self.old.list node) }
        ensures prefix { self.new.prefix ≡ self.old.prefix }
        ensures err { OnErr result (self.new ≡ self.old) }
    {
        let (place, _) = self.nodes.insert_full(node)?;
        Ok(place as u32)
    }

    /// Issues identifiers for nodes that have none yet, in their order. After an `Err` it may have
    /// issued for the first of them.
    pub fn issue_each(&mut self, nodes: &[u32]) -> Result<(), NoMemory>
        requires nodes { All (λ n. n < u32.MAX) nodes.now }
        requires new { AreDistinct (self.old.list ++ nodes.now) }
        ensures list { OnOk result (self.new.list ≡ self.old.list ++ nodes.now) }
        ensures prefix { self.new.prefix ≡ self.old.prefix }
    {
        for node in nodes {
            self.issue(*node)?;
        }
        Ok(())
    }

    /// The place of the node's identifier, counted from 0.
    pub fn id_of(&self, node: u32) -> Option<u32>
        ensures { result ≡ place_of self.now.list node }
    {
        let place = self.nodes.get_index_of(&node)?;
        Some(place as u32)
    }

    /// An issuer with the same prefix and list.
    pub fn copy(&self) -> Result<Self, NoMemory>
        ensures { IfOk result (λ copy. copy ≡ self.now) }
    {
        Ok(Issuer {
            prefix: self.prefix,
            nodes: self.nodes.clone()?,
        })
    }

    /// The length of the list now, for a later `undo`.
    pub fn mark(&self) -> Mark
        ensures { result.length ≡ length self.now.list }
    {
        Mark {
            length: self.nodes.len() as u32,
        }
    }

    /// Takes back what was issued since the mark, in the time of the identifiers that go.
    pub fn undo(&mut self, mark: Mark)
        requires { mark.length ≤ length self.old.list }
        ensures list { self.new.list ≡ take mark.length self.old.list }
        ensures prefix { self.new.prefix ≡ self.old.prefix }
    {
        self.nodes.truncate(mark.length as usize);
    }
}
