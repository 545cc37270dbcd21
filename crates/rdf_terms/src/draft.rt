//! A document while it is read.

ghost use Rattle.std.specs.Prelude.{◌≡◌, ℕ, ◌<◌, ◌≤◌, ◌+◌, ◌↔◌, [], length, map, All, IfOk, OnOk, OnErr, IsTrue};
ghost use Rattle.rdf_terms.specs.Lists.{In};
ghost use Rattle.rdf_terms.specs.Terms.{IsValidStatement};
ghost use Rattle.rdf_terms.specs.Dataset.{IsUsed};
ghost use Rattle.rdf_terms.specs.Document.{statements, Adds, AddsAll, Interns, Finishes};
ghost use Rattle.rdf_terms.specs.References.{statement_of, graph_name_of, label_of};

use crate::finish::{are_all_used, new_numbers, used_labels, used_nodes};
use crate::numbering::{insert_all, number_all, number_terms};
use crate::{
    Label, LabelRef, MOST_NUMBERS, MOST_QUADS, NoMemory, Parsed, Quad, StatementRef, Term, TermRef,
    TermTable,
};
use indexmap::IndexSet;
use std::alloc::Global;
use std::hash::RandomState;
use std::marker::Model;

/// A document that is being read, in which a node may still stand in no quad.
#[derive(Drop)]
pub struct Draft {
    alloc: Global,
    terms: TermTable,
    quads: IndexSet<Quad, RandomState>,
    labels: IndexSet<Label, RandomState>,
}

impl Model for Draft {
    ghost use Rattle.rdf_terms.specs.Document.{Document, IsDraft};

    ghost Value = { Document };

    ghost view = { λ d. record { terms = d.terms; quads = d.quads.keys; labels = d.labels.keys } };

    ghost invariant = { λ d. IsDraft (record { terms = d.terms; quads = d.quads.keys; labels = d.labels.keys }) };
}

fn graph_name_ref(graph_name: &Option<Term>) -> Option<TermRef<'_>>
    ensures { graph_name_of result ≡ graph_name.now }
{
    match graph_name {
        Some(term) => Some(term.as_ref()),
        None => None,
    }
}

impl Draft {
    /// No node and no quad. The keys are those of the hashes by which terms, quads and labels are
    /// found; no answer depends on them.
    pub fn new(alloc: Global, keys: RandomState) -> Self
        ensures { result ≡ record { terms = []; quads = []; labels = [] } }
    {
        Draft {
            alloc,
            terms: TermTable::new(alloc, keys),
            quads: IndexSet::with_hasher(alloc, keys),
            labels: IndexSet::with_hasher(alloc, keys),
        }
    }

    /// No node and no quad, with room for so many quads and terms. More may come.
    pub fn with_capacity(
        alloc: Global,
        keys: RandomState,
        quads: usize,
        terms: usize,
    ) -> Result<Self, NoMemory>
        ensures { IfOk result (λ draft. draft ≡ record { terms = []; quads = []; labels = [] }) }
    {
        Ok(Draft {
            alloc,
            terms: TermTable::with_capacity(alloc, keys, terms)?,
            quads: IndexSet::with_capacity_and_hasher(alloc, quads, keys)?,
            labels: IndexSet::with_hasher(alloc, keys),
        })
    }

    /// The number of the node with this label: the old one where it is there, else the next.
    pub fn node(&mut self, label: Label) -> Result<u32, NoMemory>
        requires { length self.old.labels < MOST_NUMBERS }
        ensures ok { IfOk result (Interns self.old.labels self.new.labels label) }
        ensures statements { statements self.new ≡ statements self.old }
        ensures err { OnErr result (self.new ≡ self.old) }
    {
        let (index, _) = self.labels.insert_full(label)?;
        Ok(index as u32)
    }

    /// The same as `node`, of a label that is copied only where it is new.
    pub fn node_ref(&mut self, label: LabelRef<'_>) -> Result<u32, NoMemory>
        requires { length self.old.labels < MOST_NUMBERS }
        ensures ok { IfOk result (Interns self.old.labels self.new.labels (label_of label.entry)) }
        ensures statements { statements self.new ≡ statements self.old }
        ensures err { OnErr result (self.new ≡ self.old) }
    {
        if let Some(index) = self.labels.get_index_of(label) {
            return Ok(index as u32);
        }
        let label = label.to_label(self.alloc)?;
        self.node(label)
    }

    /// Adds a quad by its terms, and says whether it is new.
    pub fn add(&mut self, s: Term, p: Term, o: Term, g: Option<Term>) -> Result<bool, NoMemory>
        requires valid { IsValidStatement (length self.old.labels) (record { subject = s; predicate = p; object = o; graph_name = g }) }
        requires room { length self.old.quads < MOST_QUADS }
        ensures adds { IfOk result (λ _. Adds (statements self.old) (record { subject = s; predicate = p; object = o; graph_name = g }) (statements self.new)) }
        ensures new { IfOk result (λ new. IsTrue new ↔ (¬ (In (record { subject = s; predicate = p; object = o; graph_name = g }) (statements self.old)))) }
        ensures labels { self.new.labels ≡ self.old.labels }
        ensures err { OnErr result (self.new ≡ self.old) }
    {
        self.add_ref(StatementRef {
            subject: s.as_ref(),
            predicate: p.as_ref(),
            object: o.as_ref(),
            graph_name: graph_name_ref(&g),
        })
    }

    /// The same as `add`, of terms that are copied only where they are new.
    pub fn add_ref(&mut self, quad: StatementRef<'_>) -> Result<bool, NoMemory>
        requires valid { IsValidStatement (length self.old.labels) (statement_of quad) }
        requires room { length self.old.quads < MOST_QUADS }
        ensures adds { IfOk result (λ _. Adds (statements self.old) (statement_of quad.entry) (statements self.new)) }
        ensures new { IfOk result (λ new. IsTrue new ↔ (¬ (In (statement_of quad.entry) (statements self.old)))) }
        ensures labels { self.new.labels ≡ self.old.labels }
        ensures err { OnErr result (self.new ≡ self.old) }
    {
        let before = self.terms.len();
        let known = self.terms.known_ends_of(&quad);
        let Ok(quad) = number_terms(self.alloc, &mut self.terms, quad, known) else {
            self.terms.truncate(before);
            return Err(NoMemory);
        };
        let Ok(new) = self.quads.insert(quad) else {
            self.terms.truncate(before);
            return Err(NoMemory);
        };
        Ok(new)
    }

    /// The same as `add_ref` for each of these quads, in their order. Where memory is refused, none
    /// of them is added.
    pub fn add_all(&mut self, quads: &[StatementRef<'_>]) -> Result<(), NoMemory>
        requires valid { All (λ q. IsValidStatement (length self.old.labels) (statement_of q)) quads.now }
        requires room { length self.old.quads + length quads.now ≤ MOST_QUADS }
        ensures adds { OnOk result (AddsAll (statements self.old) (map statement_of quads.now) (statements self.new)) }
        ensures labels { self.new.labels ≡ self.old.labels }
        ensures err { OnErr result (self.new ≡ self.old) }
    {
        let terms_before = self.terms.len();
        let quads_before = self.quads.len();
        let Ok(numbered) = number_all(self.alloc, &mut self.terms, quads) else {
            self.terms.truncate(terms_before);
            return Err(NoMemory);
        };
        let Ok(()) = insert_all(&mut self.quads, &numbered) else {
            self.terms.truncate(terms_before);
            self.quads.truncate(quads_before);
            return Err(NoMemory);
        };
        Ok(())
    }

    /// How many labels have a node, which is the number that the next new one gets.
    pub fn label_count(&self) -> u32
        ensures { result ≡ length self.now.labels }
    {
        self.labels.len() as u32
    }

    /// The number of distinct quads.
    pub fn quad_count(&self) -> u64
        ensures quads { result ≡ length self.now.quads }
        ensures statements { result ≡ length (statements self.now) }
    {
        self.quads.len() as u64
    }

    /// The document that was read. A node that stands in no quad is dropped, and the others are
    /// numbered anew, in the order in which `node` gave their numbers. That is for TriG alone, as in
    /// `[ ]`: in N-Quads each node stands in a quad.
    pub fn finish(self) -> Result<Parsed, NoMemory>
        ensures finishes { IfOk result (Finishes self) }
        ensures whole { ((n : ℕ) → n < length self.labels → IsUsed (statements self) n) → IfOk result (λ parsed. parsed ≡ self) }
    {
        let Draft {
            alloc,
            terms,
            quads,
            labels,
        } = self;
        let used = used_nodes(alloc, &terms, labels.len())?;
        if are_all_used(&used) {
            return Ok(Parsed::new(terms, quads, labels));
        }
        let numbers = new_numbers(alloc, &used)?;
        let terms = terms.renumbered(alloc, &numbers)?;
        let labels = used_labels(alloc, labels, &used)?;
        Ok(Parsed::new(terms, quads, labels))
    }
}
