//! Pairs of a node and the node that two maps, one after the other, take it to.
ghost use Rattle.std.specs.Prelude.{◌≡◌, ◌<◌, ◌^◌, ◌++◌, ◌∷◌, ℕ, true, [], if◌then◌else◌, length, map, filter, IfOk, OnOk};
ghost use Rattle.rdf_terms.specs.Lists.{numbers_below};
ghost use Rattle.rdf_terms.specs.declared.term.Term.TheVariants.{Blank};
ghost use Rattle.map_search.specs.Marks.{mark_at};
ghost use Rattle.component_walk.specs.Image.{IsOneGraph};
ghost use Rattle.entail.specs.Answers.{map_by};
ghost use Rattle.equivalence.specs.Pairs.{IsMapTo, IsNode, taken};

use component_walk::node_of;
use dataset_index::Dataset;
use rdf_terms::NoMemory;
use std::alloc::Global;

// The node that the map takes the node to.
fn node_after(graph: &Dataset, numbers: &[u32], node: u32) -> u32
    requires one { IsOneGraph graph.now }
    requires numbers { IsMapTo graph.now (length numbers.now) numbers.now }
    requires within { node < length numbers.now }
    requires is_node { IsNode (map_by graph.now.terms numbers.now node) }
    ensures node { map_by graph.now.terms numbers.now node ≡ Blank result }
    ensures within { result < length graph.now.labels }
{
    match node_of(graph, numbers[node as usize]) {
        Some(after) => after,
        None => unreachable!(),
    }
}

// The node that both maps, one after the other, take the node to.
fn node_taken(graph: &Dataset, images: &[u32], onward: &[u32], node: u32) -> u32
    requires one { IsOneGraph graph.now }
    requires images { IsMapTo graph.now (length images.now) images.now }
    requires onward { IsMapTo graph.now (length graph.now.labels) onward.now }
    requires within { node < length images.now }
    requires is_node { IsNode (taken graph.now images.now onward.now node) }
    ensures { taken graph.now images.now onward.now node ≡ Blank result }
{
    node_after(graph, onward, node_after(graph, images, node))
}

// Adds the pair of the node, if it is there.
fn push_if(
    pairs: &mut Vec<(u32, u32)>,
    graph: &Dataset,
    images: &[u32],
    onward: &[u32],
    node: u32,
    there: bool,
) -> Result<(), NoMemory>
    requires one { IsOneGraph graph.now }
    requires images { IsMapTo graph.now (length images.now) images.now }
    requires onward { IsMapTo graph.now (length graph.now.labels) onward.now }
    requires within { node < length images.now }
    requires is_node { there ≡ true → IsNode (taken graph.now images.now onward.now node) }
    ensures { OnOk result ((k : ℕ) → (there ≡ true → taken graph.now images.now onward.now node ≡ Blank k) → pairs.new.items ≡ pairs.old.items ++ (if there then (node, k) ∷ [] else [])) }
{
    if there {
        pairs.push((node, node_taken(graph, images, onward, node)))?;
    }
    Ok(())
}

// The pairs of the nodes that are marked, ascending.
pub(crate) fn pairs_of(
    alloc: Global,
    graph: &Dataset,
    images: &[u32],
    onward: &[u32],
    marks: &[bool],
) -> Result<Vec<(u32, u32)>, NoMemory>
    requires one { IsOneGraph graph.now }
    requires images { IsMapTo graph.now (length images.now) images.now }
    requires onward { IsMapTo graph.now (length graph.now.labels) onward.now }
    requires count { length marks.now ≡ length images.now }
    requires bound { length marks.now < 2 ^ 32 }
    requires are_nodes { (n : ℕ) → mark_at marks.now n ≡ true → IsNode (taken graph.now images.now onward.now n) }
    ensures { IfOk result (λ pairs. (f : ℕ → ℕ) → ((n : ℕ) → mark_at marks.now n ≡ true → taken graph.now images.now onward.now n ≡ Blank (f n)) → pairs.items ≡ map (λ n. (n, f n)) (filter (mark_at marks.now) (numbers_below (length marks.now)))) }
{
    let mut pairs = Vec::new(alloc);
    for (node, there) in marks.iter().enumerate() {
        push_if(&mut pairs, graph, images, onward, node as u32, *there)?;
    }
    Ok(pairs)
}
