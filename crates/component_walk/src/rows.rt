//! What the triples of each node of a component ask of its image.
ghost use Rattle.std.specs.Prelude.{◌≡◌, ◌<◌, map, length, slice_index, All, IfOk};
ghost use Rattle.rdf_terms.specs.Lists.{AreDistinct};
ghost use Rattle.map_search.specs.Index.{quad_at, meets_in};
ghost use Rattle.map_search.specs.Laws.{IsSearch};
ghost use Rattle.map_search.specs.Numbers.{AreNumbers};
ghost use Rattle.component_walk.specs.Image.{IsOneGraph, IsIndexOf, quads_left};
ghost use Rattle.component_walk.specs.Places.{ArePlaces};
ghost use Rattle.component_walk.specs.Asked.{end_for, subject_for, object_for, condition_for, row_for};

use crate::left::places_left;
use crate::places::NONE;
use dataset_index::Dataset;
use map_search::{Condition, End, Index};
use rdf_terms::{MOST_NUMBERS, NoMemory, Quad};
use std::alloc::Global;

// The other end of a triple of the term at a place: a term that keeps its place in the graph, or the
// image at an earlier place, or none yet.
fn end_of(place_of: &[u32], place: u32, other: u32) -> Option<End>
    requires { other < length place_of.now }
    ensures { result ≡ end_for place_of.now place other }
{
    let found = place_of[other as usize];
    if found == NONE {
        Some(End::Fixed(other))
    } else if found < place {
        Some(End::Place(found))
    } else {
        None
    }
}

fn subject_condition(predicate: u32, object: Option<End>) -> Condition
    ensures { result ≡ subject_for predicate object }
{
    match object {
        Some(end) => Condition::Subject(predicate, end),
        None => Condition::SomeSubject(predicate),
    }
}

fn object_condition(predicate: u32, subject: Option<End>) -> Condition
    ensures { result ≡ object_for predicate subject }
{
    match subject {
        Some(end) => Condition::Object(end, predicate),
        None => Condition::SomeObject(predicate),
    }
}

// What the triple asks of the image of the term at this place.
fn condition(place_of: &[u32], place: u32, term: u32, triple: Quad) -> Condition
    requires s { triple.s < length place_of.now }
    requires o { triple.o < length place_of.now }
    ensures { result ≡ condition_for place_of.now place term triple }
{
    if triple.s == term && triple.o == term {
        Condition::Both(triple.p)
    } else if triple.s == term {
        subject_condition(triple.p, end_of(place_of, place, triple.o))
    } else {
        object_condition(triple.p, end_of(place_of, place, triple.s))
    }
}

fn row(
    alloc: Global,
    index: &Index,
    place_of: &[u32],
    place: u32,
    term: u32,
    triples: &[u32],
) -> Result<Vec<Condition>, NoMemory>
    requires s { All (λ k. (quad_at index.now.quads k).s < length place_of.now) triples.now }
    requires o { All (λ k. (quad_at index.now.quads k).o < length place_of.now) triples.now }
    ensures { IfOk result (λ row. row.items ≡ map (λ k. condition_for place_of.now place term (quad_at index.now.quads k)) triples.now) }
{
    let mut row = Vec::new(alloc);
    for triple in triples {
        row.push(condition(place_of, place, term, index.quad(*triple)))?;
    }
    Ok(row)
}

/// What the triples of each node of the walk ask of its image. `own` holds the nodes' terms, and
/// `place_of` the place of each of them.
pub fn rows_of(
    alloc: Global,
    graph: &Dataset,
    index: &Index,
    place_of: &[u32],
    walk: &[u32],
    own: &[u32],
) -> Result<Vec<Vec<Condition>>, NoMemory>
    requires one { IsOneGraph graph.now }
    requires index { IsIndexOf graph.now index.now }
    requires places { ArePlaces (length graph.now.terms) place_of.now own.now }
    requires within { All (λ n. n < length graph.now.labels) walk.now }
    requires few { length own.now < MOST_NUMBERS }
    requires numbers { AreNumbers graph.now.terms (quads_left graph.now index.now.live) own.now walk.now }
    ensures { IfOk result (λ rows. IsSearch (quads_left graph.now index.now.live) (quads_left graph.now index.now.live) own.now (map (λ row. row.items) rows.items) (length graph.now.terms) (meets_in (quads_left graph.now index.now.live))) }
{
    let mut rows = Vec::new(alloc);
    for (place, node) in walk.iter().enumerate() {
        let triples = places_left(alloc, graph, index, *node)?;
        rows.push(row(
            alloc,
            index,
            place_of,
            place as u32,
            own[place],
            triples.as_slice(),
        )?)?;
    }
    Ok(rows)
}
