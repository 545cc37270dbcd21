//! The node of a component with which its search begins.
ghost use Rattle.std.specs.Prelude.{◌<◌, length, All};
ghost use Rattle.rdf_terms.specs.Lists.{In};
ghost use Rattle.entail.specs.Crossed.{AreCrossed};

use crate::crossing::{Crossing, number_at};
use component_walk::{node_of, quad_in};
use rdf_terms::Quad;

// How many candidates the triple leaves to the image of the term: by the triple's other end where
// that is no node, else by its predicate alone.
fn candidates(crossing: &Crossing<'_>, term: u32, triple: Quad) -> usize
    requires crossed { AreCrossed crossing.now }
    requires there { In triple crossing.now.entailed.now.quads }
{
    let numbers = crossing.numbers.as_slice();
    let predicate = number_at(numbers, triple.p);
    if triple.s == term && node_of(crossing.entailed, triple.o).is_none() {
        crossing
            .graph_index
            .subjects_of(predicate, number_at(numbers, triple.o))
    } else if triple.o == term && node_of(crossing.entailed, triple.s).is_none() {
        crossing
            .graph_index
            .objects_of(number_at(numbers, triple.s), predicate)
    } else {
        crossing.graph_index.triples_of(predicate)
    }
}

// The fewest candidates that one triple of the node leaves to its image.
fn fewest_candidates(crossing: &Crossing<'_>, node: u32) -> usize
    requires crossed { AreCrossed crossing.now }
    requires within { node < length crossing.now.entailed.now.labels }
{
    let term = crossing.entailed.term_of(node);
    let quads = crossing.entailed.quads();
    let mut fewest = usize::MAX;
    let places = crossing.entailed.quads_of(node);
    for place in places {
        fewest = fewest.min(candidates(crossing, term, quad_in(quads, *place)));
    }
    fewest
}

// The node of the walk whose image has the fewest candidates by one of its triples.
pub(crate) fn most_bound(crossing: &Crossing<'_>, walk: &[u32]) -> u32
    requires crossed { AreCrossed crossing.now }
    requires some { 0 < length walk.now }
    requires within { All (λ n. n < length crossing.now.entailed.now.labels) walk.now }
    ensures { In result walk.now }
{
    let mut best = walk[0];
    let mut fewest = usize::MAX;
    for node in walk {
        let candidates = fewest_candidates(crossing, *node);
        if candidates < fewest {
            fewest = candidates;
            best = *node;
        }
    }
    best
}
