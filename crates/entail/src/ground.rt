//! Triples without nodes.
ghost use Rattle.std.specs.Prelude.{◌≡◌, ◌↔◌, IsTrue, slice_index};
ghost use Rattle.rdf_terms.specs.Lists.{In};
ghost use Rattle.rdf_terms.specs.Document.{statement, statements};
ghost use Rattle.entail.specs.Crossed.{AreCrossed};
ghost use Rattle.entail.specs.Numbers.{quad_by};
ghost use Rattle.entail.specs.Entailment.{IsGround};
ghost use Rattle.entail.specs.Searched.{IsGroundKept};

use crate::crossing::{Crossing, number_at};
use component_walk::node_of;
use rdf_terms::Quad;

fn has_node(crossing: &Crossing<'_>, triple: Quad) -> bool
    requires crossed { AreCrossed crossing.now }
    requires there { In triple crossing.now.entailed.now.quads }
    ensures { IsTrue result ↔ (¬ (IsGround (statement crossing.now.entailed.now.terms triple))) }
{
    node_of(crossing.entailed, triple.s).is_some() || node_of(crossing.entailed, triple.o).is_some()
}

// The triple, which has no graph name, by the numbers of the graph.
fn crossed(numbers: &[u32], triple: Quad) -> Quad
    ensures { result ≡ quad_by (slice_index numbers.now) triple }
{
    Quad {
        s: number_at(numbers, triple.s),
        p: number_at(numbers, triple.p),
        o: number_at(numbers, triple.o),
        g: triple.g,
    }
}

// Whether the triple has a node, or stands in the graph.
fn is_kept(crossing: &Crossing<'_>, triple: Quad) -> bool
    requires crossed { AreCrossed crossing.now }
    requires there { In triple crossing.now.entailed.now.quads }
    ensures { IsTrue result ↔ (IsGround (statement crossing.now.entailed.now.terms triple) → In (statement crossing.now.entailed.now.terms triple) (statements crossing.now.graph.now)) }
{
    has_node(crossing, triple)
        || crossing
            .graph
            .has(crossed(crossing.numbers.as_slice(), triple))
}

// Whether each triple without nodes stands in the graph.
pub(crate) fn is_ground_kept(crossing: &Crossing<'_>) -> bool
    requires { AreCrossed crossing.now }
    ensures { IsTrue result ↔ IsGroundKept (statements crossing.now.entailed.now) (statements crossing.now.graph.now) }
{
    let triples = crossing.entailed.quads();
    for triple in triples {
        if !is_kept(crossing, *triple) {
            return false;
        }
    }
    true
}
