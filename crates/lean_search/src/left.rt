//! The triples that are left at a node.
ghost use Rattle.std.specs.Prelude.{◌≡◌, ◌<◌, ◌↔◌, filter, length, IfOk, IfSome, IsTrue};
ghost use Rattle.std.specs.List.{list_any};
ghost use Rattle.rdf_terms.specs.Document.{statements, term_at};
ghost use Rattle.rdf_terms.specs.Dataset.{IsUsed};
ghost use Rattle.dataset_index.specs.Mentions.{node_in, places_of};
ghost use Rattle.map_search.specs.Index.{quad_at};
ghost use Rattle.map_search.specs.Marks.{mark_at};
ghost use Rattle.lean_search.specs.Image.{IsOneGraph, IsIndexOf, left};

use dataset_index::Dataset;
use map_search::Index;
use rdf_terms::{NoMemory, Quad, Term, TermTable};
use std::alloc::Global;

fn node_in_term(term: &Term) -> Option<u32>
    ensures { result ≡ node_in term.now }
{
    match term {
        Term::Blank(node) => Some(*node),
        Term::Iri(_) | Term::Literal(_) => None,
    }
}

fn node_at(terms: &TermTable, number: u32) -> Option<u32>
    requires { number < length terms.now }
    ensures { result ≡ node_in (term_at terms.now number) }
{
    match terms.get(number) {
        Some(term) => node_in_term(term),
        None => None,
    }
}

// The node that the term with this number is.
pub(crate) fn node_of(graph: &Dataset, term: u32) -> Option<u32>
    requires one { IsOneGraph graph.now }
    requires within { term < length graph.now.terms }
    ensures node { result ≡ node_in (term_at graph.now.terms term) }
    ensures within { IfSome result (λ n. n < length graph.now.labels) }
{
    node_at(graph.terms(), term)
}

// The places of those triples of the node that are left, ascending.
pub(crate) fn places_left(
    alloc: Global,
    graph: &Dataset,
    index: &Index,
    node: u32,
) -> Result<Vec<u32>, NoMemory>
    requires { node < length graph.now.labels }
    ensures { IfOk result (λ places. places.items ≡ filter (mark_at index.now.live) (places_of (statements graph.now) node)) }
{
    let mut places = Vec::new(alloc);
    for place in graph.quads_of(node) {
        if index.has(*place) {
            places.push(*place)?;
        }
    }
    Ok(places)
}

fn has_any(index: &Index, places: &[u32]) -> bool
    ensures { result ≡ list_any (mark_at index.now.live) places.now }
{
    places.iter().any(|place| index.has(*place))
}

// Whether a triple of the node is left.
pub(crate) fn is_left(graph: &Dataset, index: &Index, node: u32) -> bool
    requires one { IsOneGraph graph.now }
    requires index { IsIndexOf graph.now index.now }
    requires within { node < length graph.now.labels }
    ensures { IsTrue result ↔ IsUsed (left graph.now index.now.live) node }
{
    has_any(index, graph.quads_of(node))
}

// The quad at this place.
pub(crate) fn quad_in(quads: &[Quad], place: u32) -> Quad
    requires { place < length quads.now }
    ensures { result ≡ quad_at quads.now place }
{
    quads[place as usize]
}
