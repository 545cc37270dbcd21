//! Where the pairs of a map of nodes lead the quads of a dataset.

ghost use Rattle.std.specs.Prelude.{◌≡◌, ◌<◌, ◌↔◌, length, IsTrue};
ghost use Rattle.rdf_terms.specs.Document.{dataset as dataset_of, term_at, IsDocument};
ghost use Rattle.rdf_terms.specs.Isomorphism.{relabel_term};
ghost use Rattle.tie_witness.specs.Moving.{image_in, LeadToNodes, FromNodes, statement_at, IsCarriedTo, CarriesQuadsOf, CarriesQuadsOfMoved};
ghost use Rattle.tie_witness.specs.Witness.{AscendByFirst};

use dataset_index::Dataset;
use rdf_terms::{Quad, Term};

// Where the pairs lead the node.
fn image(pairs: &[(u32, u32)], node: u32) -> u32
    requires { AscendByFirst pairs.now }
    ensures { result ≡ image_in pairs.now node }
{
    match pairs.binary_search_by_key(&node, |&(first, _)| first) {
        Ok(at) => pairs[at].1,
        Err(_) => node,
    }
}

// The number of the term that the pairs make of this one.
fn image_of_term(dataset: &Dataset, pairs: &[(u32, u32)], number: u32) -> u32
    requires document { IsDocument dataset.now }
    requires number { number < length dataset.now.terms }
    requires ascend { AscendByFirst pairs.now }
    requires nodes { LeadToNodes (length dataset.now.labels) pairs.now }
    ensures number { result < length dataset.now.terms }
    ensures term { term_at dataset.now.terms result ≡ relabel_term (image_in pairs.now) (term_at dataset.now.terms number) }
{
    let Some(term) = dataset.terms().get(number) else {
        unreachable!()
    };
    match term {
        Term::Blank(node) => dataset.term_of(image(pairs, *node)),
        Term::Iri(_) | Term::Literal(_) => number,
    }
}

// Whether the quad that the pairs make of the one in this place is in the dataset.
fn is_carried(dataset: &Dataset, pairs: &[(u32, u32)], place: u32) -> bool
    requires document { IsDocument dataset.now }
    requires place { place < length dataset.now.quads }
    requires ascend { AscendByFirst pairs.now }
    requires nodes { LeadToNodes (length dataset.now.labels) pairs.now }
    ensures { IsTrue result ↔ IsCarriedTo (dataset_of dataset.now) (image_in pairs.now) (statement_at dataset.now place) }
{
    let quad = dataset.quads()[place as usize];
    let s = image_of_term(dataset, pairs, quad.s);
    let o = image_of_term(dataset, pairs, quad.o);
    match quad.g {
        Some(name) => {
            let g = image_of_term(dataset, pairs, name);
            dataset.has(Quad {
                s,
                p: quad.p,
                o,
                g: Some(g),
            })
        }
        None => dataset.has(Quad {
            s,
            p: quad.p,
            o,
            g: None,
        }),
    }
}

fn carries_quads_of(dataset: &Dataset, pairs: &[(u32, u32)], node: u32) -> bool
    requires node { node < length dataset.now.labels }
    requires ascend { AscendByFirst pairs.now }
    requires nodes { LeadToNodes (length dataset.now.labels) pairs.now }
    ensures { IsTrue result ↔ CarriesQuadsOf (dataset_of dataset.now) (image_in pairs.now) node }
{
    let _nodes = dataset.node_count();
    let places = dataset.quads_of(node);
    for place in places {
        if !is_carried(dataset, pairs, *place) {
            return false;
        }
    }
    true
}

// Whether the pairs carry each quad that mentions a node that they move to one that is there.
pub(crate) fn carries_moved(dataset: &Dataset, pairs: &[(u32, u32)]) -> bool
    requires ascend { AscendByFirst pairs.now }
    requires nodes { LeadToNodes (length dataset.now.labels) pairs.now }
    requires moved { FromNodes (length dataset.now.labels) pairs.now }
    ensures { IsTrue result ↔ CarriesQuadsOfMoved (dataset_of dataset.now) (image_in pairs.now) pairs.now }
{
    for pair in pairs {
        if !carries_quads_of(dataset, pairs, pair.0) {
            return false;
        }
    }
    true
}
