//! The nodes that hang together with one, in walk order.
ghost use Rattle.std.specs.Prelude.{◌≡◌, ◌<◌, ◌≤◌, ◌^◌, ◌⊎◌, ◌↔◌, ℕ, true, false, length, slice_set, [], ◌∷◌, ◌++◌, Some, IfOk, OnOk, IfSome, IfNone, All};
ghost use Rattle.rdf_terms.specs.Dataset.{IsUsed};
ghost use Rattle.map_search.specs.Marks.{mark_at, IsNextMark, NoMark};
ghost use Rattle.component_walk.specs.Image.{IsOneGraph, IsIndexOf, left};
ghost use Rattle.component_walk.specs.Walk.{IsNear, IsUnmarked, IsWalkFrom, IsWalking, IsNextOf};

use crate::left::{node_of, places_left};
use crate::marking::mark_all;
use dataset_index::Dataset;
use map_search::{Index, Marks};
use rdf_terms::NoMemory;
use std::alloc::Global;

// Marks the node as ahead, if there is one and it was not walked to.
fn mark_node(ahead: &mut Marks, walked: &[bool], node: Option<u32>)
    requires walked { IfSome node (λ n. n < length walked.now) }
    requires ahead { IfSome node (λ n. n < length ahead.old) }
    ensures length { length ahead.new ≡ length ahead.old }
    ensures marks { (k : ℕ) → (mark_at ahead.new k ≡ true) ↔ ((mark_at ahead.old k ≡ true) ⊎ ((node ≡ Some k) × (mark_at walked.now k ≡ false))) }
{
    if let Some(node) = node {
        if !walked[node as usize] {
            ahead.set(node as usize, true);
        }
    }
}

// Marks the ends of the triples at these places as ahead, where they are nodes that were not walked to.
fn mark_ends(ahead: &mut Marks, walked: &[bool], graph: &Dataset, index: &Index, places: &[u32])
    requires one { IsOneGraph graph.now }
    requires index { IsIndexOf graph.now index.now }
    requires within { All (λ k. k < length graph.now.quads) places.now }
    requires walked { length graph.now.labels ≤ length walked.now }
    requires ahead { length graph.now.labels ≤ length ahead.old }
    ensures length { length ahead.new ≡ length ahead.old }
    ensures marks { (k : ℕ) → (mark_at ahead.new k ≡ true) ↔ ((mark_at ahead.old k ≡ true) ⊎ (IsNear graph.now places.now k × (mark_at walked.now k ≡ false))) }
{
    for place in places {
        let triple = index.quad(*place);
        mark_node(ahead, walked, node_of(graph, triple.s));
        mark_node(ahead, walked, node_of(graph, triple.o));
    }
}

// The least node ahead.
fn next_ahead(ahead: &Marks) -> Option<u32>
    requires { (k : ℕ) → mark_at ahead.now k ≡ true → k < 2 ^ 32 }
    ensures some { IfSome result (IsNextMark ahead.now 0 (length ahead.now)) }
    ensures none { IfNone result (NoMark ahead.now 0 (length ahead.now)) }
{
    match ahead.next(0) {
        Some(next) => Some(next as u32),
        None => None,
    }
}

// Walks to the node, and answers the next one.
fn walk_to(
    alloc: Global,
    graph: &Dataset,
    index: &Index,
    walk: &mut Vec<u32>,
    walked: &mut [bool],
    ahead: &mut Marks,
    node: u32,
) -> Result<Option<u32>, NoMemory>
    requires one { IsOneGraph graph.now }
    requires index { IsIndexOf graph.now index.now }
    requires walked { length graph.now.labels ≤ length walked.old }
    requires ahead { length graph.now.labels ≤ length ahead.old }
    requires within { node < length graph.now.labels }
    requires walking { IsWalking (left graph.now index.now.live) walk.old.items walked.old ahead.old }
    ensures walk { OnOk result (walk.new.items ≡ walk.old.items ++ node ∷ []) }
    ensures walked { OnOk result (walked.new ≡ slice_set walked.old node true) }
    ensures length { length ahead.new ≡ length ahead.old }
    ensures walking { OnOk result (IsWalking (left graph.now index.now.live) walk.new.items walked.new ahead.new) }
    ensures next { IfOk result (IsNextOf (left graph.now index.now.live) walk.new.items) }
{
    walk.push(node)?;
    walked[node as usize] = true;
    ahead.set(node as usize, false);
    let places = places_left(alloc, graph, index, node)?;
    mark_ends(ahead, walked, graph, index, places.as_slice());
    Ok(next_ahead(ahead))
}

/// The nodes that hang together with this one through triples that are left: this one first, then
/// always the least node that shares a triple with one before. No node is marked before and after.
pub fn walk_from(
    alloc: Global,
    graph: &Dataset,
    index: &Index,
    walked: &mut [bool],
    ahead: &mut Marks,
    start: u32,
) -> Result<Vec<u32>, NoMemory>
    requires one { IsOneGraph graph.now }
    requires index { IsIndexOf graph.now index.now }
    requires used { IsUsed (left graph.now index.now.live) start }
    requires walked { IsUnmarked (length graph.now.labels) walked.old }
    requires ahead { IsUnmarked (length graph.now.labels) ahead.old }
    ensures walk { IfOk result (λ walk. IsWalkFrom (left graph.now index.now.live) start walk.items) }
    ensures walked { OnOk result (IsUnmarked (length graph.now.labels) walked.new) }
    ensures ahead { OnOk result (IsUnmarked (length graph.now.labels) ahead.new) }
{
    let mut walk = Vec::new(alloc);
    let mut next = Some(start);
    while let Some(node) = next {
        next = walk_to(alloc, graph, index, &mut walk, walked, ahead, node)?;
    }
    mark_all(walked, walk.as_slice(), false);
    Ok(walk)
}
