//! The nodes in the order of their hashes, class by class: a class is all nodes of one hash (RDF Dataset
//! Canonicalization, section 4.4, steps 3 and 4).
ghost use Rattle.std.specs.Prelude.{◌≡◌, ◌<◌, ◌≤◌, ◌++◌, ℕ, length, map, drop, slice_range, IfOk, OnOk, IsSorted};
ghost use Rattle.std.specs.List.{flat_map, prefix_len};
ghost use Rattle.std.specs.Str.{bytes_eq};
ghost use Rattle.rdf_terms.specs.Lists.{Text, numbers_below, Permutes};
ghost use Rattle.canon_model.specs.Allowed.{single};
ghost use Rattle.canon_model.specs.Groups.{each_text_once};
ghost use Rattle.canon_core.specs.HashOrder.{hash_in, hash_of, node_of, node_cmp, StrictlyAscends, IsRanked, class_hash, front_class, behind_class, nodes_under};

use crate::hashed_node::HashedNode;
use canon_model::HexHash;
use rdf_terms::NoMemory;
use std::alloc::Global;

// Each hash with the node that has it.
fn with_nodes<'a>(
    alloc: Global,
    hashes: &'a [HexHash],
    count: u32,
) -> Result<Vec<HashedNode<'a>>, NoMemory>
    requires { count ≡ length hashes.now }
    ensures { IfOk result (λ nodes. nodes.items ≡ map (λ n. (hash_in hashes.now n, n)) (numbers_below count)) }
{
    let mut nodes = Vec::with_capacity(alloc, count as usize)?;
    for node in 0..count {
        nodes.push(HashedNode::new(&hashes[node as usize], node))?;
    }
    Ok(nodes)
}

// Puts the nodes in the order of their hashes.
fn sort(nodes: &mut Vec<HashedNode<'_>>)
    ensures permutes { Permutes nodes.old.items nodes.new.items }
    ensures sorted { IsSorted node_cmp nodes.new.items }
{
    nodes.sort_unstable_by(|node, other| node.compare(other));
}

// The nodes by their hashes, those of one class by their numbers. Each place has the hash of the node with this
// number.
pub(crate) fn in_hash_order<'a>(
    alloc: Global,
    hashes: &'a [HexHash],
    count: u32,
) -> Result<Vec<HashedNode<'a>>, NoMemory>
    requires { count ≡ length hashes.now }
    ensures permutes { IfOk result (λ nodes. Permutes (map (λ n. (hash_in hashes.now n, n)) (numbers_below count)) nodes.items) }
    ensures ascends { IfOk result (λ nodes. StrictlyAscends node_cmp nodes.items) }
{
    let mut nodes = with_nodes(alloc, hashes, count)?;
    sort(&mut nodes);
    Ok(nodes)
}

// How many nodes at the front have the hash of this one.
fn same_len(nodes: &[HashedNode<'_>], one: &HashedNode<'_>) -> usize
    ensures { result ≡ prefix_len (λ n. bytes_eq n.0 one.now.0) nodes.now }
{
    nodes
        .iter()
        .take_while(|node| node.has_hash_of(one))
        .count()
}

// How many nodes at the front have the hash of the first.
fn class_len(nodes: &[HashedNode<'_>]) -> usize
    requires { 0 < length nodes.now }
    ensures { result ≡ prefix_len (λ n. bytes_eq n.0 (class_hash nodes.now)) nodes.now }
{
    1 + same_len(&nodes[1..], &nodes[0])
}

// Where the class that begins at this place ends.
pub(crate) fn class_end(nodes: &[HashedNode<'_>], start: usize) -> usize
    requires { start < length nodes.now }
    ensures after { start < result }
    ensures within { result ≤ length nodes.now }
    ensures class { slice_range nodes.now start result ≡ front_class (class_hash (drop start nodes.now)) (drop start nodes.now) }
    ensures behind { drop result nodes.now ≡ behind_class (class_hash (drop start nodes.now)) (drop start nodes.now) }
{
    start + class_len(&nodes[start..])
}

// Adds the node of a class that has only one.
fn push_single(alone: &mut Vec<u32>, class: &[HashedNode<'_>]) -> Result<(), NoMemory>
    ensures { OnOk result (alone.new.items ≡ alone.old.items ++ single (map node_of class.now)) }
{
    if class.len() == 1 {
        alone.push(class[0].node())?;
    }
    Ok(())
}

// The nodes that are alone in their class, in their order.
pub(crate) fn alone_nodes(alloc: Global, nodes: &[HashedNode<'_>]) -> Result<Vec<u32>, NoMemory>
    ensures { IfOk result (λ alone. (hash : ℕ → Text) (count : ℕ) → IsRanked hash count nodes.now →
        alone.items ≡ flat_map (λ h. single (nodes_under hash count h)) (each_text_once (map hash_of nodes.now))) }
{
    let mut alone = Vec::with_capacity(alloc, nodes.len())?;
    let mut start = 0;
    while start < nodes.len() {
        let end = class_end(nodes, start);
        push_single(&mut alone, &nodes[start..end])?;
        start = end;
    }
    Ok(alone)
}
