//! The two graphs by the numbers of the one that is to entail the other.
ghost use Rattle.std.specs.Prelude.{◌≡◌, ℕ, ◌<◌, length, slice_index, IfOk};
ghost use Rattle.rdf_terms.specs.Document.{term_at};
ghost use Rattle.component_walk.specs.Image.{IsOneGraph};
ghost use Rattle.entail.specs.Crossed.{AreCrossed};
ghost use Rattle.entail.specs.Numbers.{IsNumberIn, AreNumbersIn};

use dataset_index::Dataset;
use map_search::Index;
use rdf_terms::{NoMemory, Term, TermTable};
use std::alloc::Global;

// A graph and one that it is to entail, each with an index of its triples. `numbers` holds for each term
// of the second the number of that term in the first, and for one that the first lacks the number behind
// those of its terms. Of nodes it says nothing, since the graphs share none.
#[derive(Drop)]
pub(crate) struct Crossing<'a> {
    pub(crate) graph: &'a Dataset,
    pub(crate) entailed: &'a Dataset,
    pub(crate) graph_index: Index,
    pub(crate) entailed_index: Index,
    pub(crate) numbers: Vec<u32>,
}

// The number of the term, or the one behind those of all terms.
fn number_in(terms: &TermTable, term: &Term) -> u32
    ensures { IsNumberIn terms.now term.now result }
{
    match terms.find(term) {
        Some(number) => number,
        None => terms.len(),
    }
}

// The number that the term with this number has in the other table.
fn number_of(terms: &TermTable, others: &TermTable, number: u32) -> u32
    requires { number < length terms.now }
    ensures { IsNumberIn others.now (term_at terms.now number) result }
{
    match terms.get(number) {
        Some(term) => number_in(others, term),
        None => others.len(),
    }
}

// The number that each term has in the other table.
fn numbers_of(alloc: Global, terms: &TermTable, others: &TermTable) -> Result<Vec<u32>, NoMemory>
    ensures { IfOk result (λ numbers. AreNumbersIn terms.now others.now numbers.items) }
{
    let mut numbers = Vec::new(alloc);
    for number in 0..terms.len() {
        numbers.push(number_of(terms, others, number))?;
    }
    Ok(numbers)
}

// The number at this place.
pub(crate) fn number_at(numbers: &[u32], place: u32) -> u32
    ensures { result ≡ slice_index numbers.now place }
{
    if (place as usize) < numbers.len() {
        numbers[place as usize]
    } else {
        0
    }
}

pub(crate) fn cross<'a>(
    alloc: Global,
    graph: &'a Dataset,
    entailed: &'a Dataset,
) -> Result<Crossing<'a>, NoMemory>
    requires graph { IsOneGraph graph.now }
    requires entailed { IsOneGraph entailed.now }
    ensures crossed { IfOk result AreCrossed }
    ensures graph { IfOk result (λ crossing. crossing.graph.now ≡ graph.now) }
    ensures entailed { IfOk result (λ crossing. crossing.entailed.now ≡ entailed.now) }
{
    let numbers = numbers_of(alloc, entailed.terms(), graph.terms())?;
    let graph_index = Index::build(alloc, graph.quads(), graph.terms().len())?;
    let entailed_index = Index::build(alloc, entailed.quads(), entailed.terms().len())?;
    Ok(Crossing {
        graph,
        entailed,
        graph_index,
        entailed_index,
        numbers,
    })
}
