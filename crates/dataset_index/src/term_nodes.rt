//! The node of each term.

ghost use Rattle.std.specs.Prelude.{◌≡◌, ◌<◌, length, map, IfOk};
ghost use Rattle.rdf_terms.specs.Document.{term_at};
ghost use Rattle.dataset_index.specs.Mentions.{node_in};
ghost use Rattle.dataset_index.specs.HeldNodes.{held_for, node_held, AreNodesBelow};

use rdf_terms::{NoMemory, Term, TermTable};
use std::alloc::Global;
use std::marker::Model;

// What is held for a term that is no node.
const NO_NODE: u32 = u32::MAX;

// Terms by number, of which it is at hand which node each is.
#[derive(Drop)]
pub(crate) struct TermNodes<'a> {
    terms: &'a TermTable,
    held: Vec<u32>,
}

impl<'a> Model for TermNodes<'a> {
    ghost use Rattle.std.specs.Prelude.{◌≡◌, List, map};
    ghost use Rattle.rdf_terms.specs.declared.term.Term.{Term};
    ghost use Rattle.dataset_index.specs.HeldNodes.{held_for, AreNodesBelow};

    ghost Value = { List Term };

    ghost view = { λ t. t.terms.now };

    ghost invariant = { λ t. (t.held.items ≡ map held_for t.terms.now) × AreNodesBelow t.terms.now };
}

fn number_held(term: &Term) -> u32
    ensures { result ≡ held_for term.now }
{
    match term {
        Term::Blank(node) => *node,
        Term::Iri(_) | Term::Literal(_) => NO_NODE,
    }
}

fn node_of_number(held: u32) -> Option<u32>
    ensures { result ≡ node_held held }
{
    if held == NO_NODE { None } else { Some(held) }
}

fn held_at(terms: &TermTable, number: u32) -> u32
    requires { number < length terms.now }
    ensures { result ≡ held_for (term_at terms.now number) }
{
    match terms.get(number) {
        Some(term) => number_held(term),
        None => NO_NODE,
    }
}

fn numbers_held(alloc: Global, terms: &TermTable) -> Result<Vec<u32>, NoMemory>
    ensures { IfOk result (λ held. held.items ≡ map held_for terms.now) }
{
    let count = terms.len();
    let mut held = Vec::with_capacity(alloc, count as usize)?;
    for number in 0..count {
        held.push(held_at(terms, number))?;
    }
    Ok(held)
}

impl<'a> TermNodes<'a> {
    pub(crate) fn of(alloc: Global, terms: &'a TermTable) -> Result<Self, NoMemory>
        requires { AreNodesBelow terms.now }
        ensures { IfOk result (λ nodes. nodes ≡ terms.now) }
    {
        let held = numbers_held(alloc, terms)?;
        Ok(TermNodes { terms, held })
    }

    // The node that the term with this number is.
    pub(crate) fn node_of(&self, number: u32) -> Option<u32>
        requires { number < length self.now }
        ensures { result ≡ node_in (term_at self.now number) }
    {
        node_of_number(self.held[number as usize])
    }

    // How many terms there are.
    pub(crate) fn len(&self) -> u32
        ensures { result ≡ length self.now }
    {
        self.terms.len()
    }
}
