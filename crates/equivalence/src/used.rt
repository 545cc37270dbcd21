//! The nodes of some triples of a graph.
ghost use Rattle.std.specs.Prelude.{◌≡◌, ◌<◌, ◌↔◌, ◌||◌, ℕ, true, false, length, IfOk, IfSome};
ghost use Rattle.rdf_terms.specs.Lists.{In};
ghost use Rattle.rdf_terms.specs.Dataset.{IsUsed, mentions};
ghost use Rattle.rdf_terms.specs.Document.{statement};
ghost use Rattle.dataset_index.specs.Mentions.{is_node_some};
ghost use Rattle.lean_search.specs.Lean.{triples_of};
ghost use Rattle.map_search.specs.Marks.{mark_at};
ghost use Rattle.component_walk.specs.Image.{IsOneGraph};

use component_walk::{no_marks, node_of};
use dataset_index::Dataset;
use rdf_terms::{NoMemory, Quad};
use std::alloc::Global;

// Marks the node, if there is one.
fn mark_node(marks: &mut [bool], node: Option<u32>)
    requires { IfSome node (λ n. n < length marks.old) }
    ensures { (k : ℕ) → mark_at marks.new k ≡ (mark_at marks.old k || is_node_some k node) }
{
    if let Some(node) = node {
        marks[node as usize] = true;
    }
}

// Marks the ends of the triple that are nodes.
fn mark_ends(marks: &mut [bool], graph: &Dataset, triple: Quad)
    requires one { IsOneGraph graph.now }
    requires there { In triple graph.now.quads }
    requires count { length marks.old ≡ length graph.now.labels }
    ensures { (k : ℕ) → mark_at marks.new k ≡ (mark_at marks.old k || mentions k (statement graph.now.terms triple)) }
{
    mark_node(marks, node_of(graph, triple.s));
    mark_node(marks, node_of(graph, triple.o));
}

// Marks the nodes of the triples.
fn mark_nodes(marks: &mut [bool], graph: &Dataset, triples: &[Quad])
    requires one { IsOneGraph graph.now }
    requires there { (q : _) → In q triples.now → In q graph.now.quads }
    requires count { length marks.old ≡ length graph.now.labels }
    requires unmarked { (k : ℕ) → mark_at marks.old k ≡ false }
    ensures { (k : ℕ) → (mark_at marks.new k ≡ true) ↔ IsUsed (triples_of graph.now triples.now) k }
{
    for triple in triples {
        mark_ends(marks, graph, *triple);
    }
}

// For each node of the graph whether it is one of the triples.
pub(crate) fn nodes_of(
    alloc: Global,
    graph: &Dataset,
    triples: &[Quad],
) -> Result<Vec<bool>, NoMemory>
    requires one { IsOneGraph graph.now }
    requires there { (q : _) → In q triples.now → In q graph.now.quads }
    ensures count { IfOk result (λ marks. length marks.items ≡ length graph.now.labels) }
    ensures marks { IfOk result (λ marks. (k : ℕ) → (mark_at marks.items k ≡ true) ↔ IsUsed (triples_of graph.now triples.now) k) }
{
    let mut marks = no_marks(alloc, graph.node_count())?;
    mark_nodes(marks.as_mut_slice(), graph, triples);
    Ok(marks)
}
