//! Hash N-Degree Quads from each node of a class that has no canonical identifier (RDF Dataset Canonicalization,
//! section 4.4, step 5.2).
ghost use Rattle.std.specs.Prelude.{◌≡◌, ◌+◌, ◌<◌, ◌≤◌, [], ◌∷◌, ◌++◌, length, map, filter, All, IfOk, OnOk};
ghost use Rattle.rdf_terms.specs.Lists.{numbers_below};
ghost use Rattle.rdf_terms.specs.Document.{dataset as dataset_of};
ghost use Rattle.canon_model.specs.Meaning.{meaning};
ghost use Rattle.canon_model.specs.FirstDegree.{hash_first_degree_quads};
ghost use Rattle.canon_model.specs.CountedRun.{counted_start, result_of, trace_of_starts};
ghost use Rattle.canon_model.specs.Allowed.{has_no_canonical};
ghost use Rattle.ndegree_hash.specs.Log.{LogsAll};
ghost use Rattle.canon_core.specs.HashOrder.{node_of};
ghost use Rattle.canon_core.specs.Results.{MayStart};

use crate::hashed_node::HashedNode;
use crate::issuing::issued_nodes;
use crate::path_result::PathResult;
use canon_model::{HexHash, Profile};
use dataset_index::Dataset;
use id_issuer::Issuer;
use ndegree_hash::{Budget, Stop, TieLog, n_degree};
use rdf_terms::{NoMemory, NodeList, Prefix};
use std::alloc::Global;

fn has_no_identifier(canon: &Issuer, node: u32) -> bool
    ensures { result ≡ has_no_canonical canon.now.list node }
{
    canon.id_of(node).is_none()
}

// The nodes of the class that have no canonical identifier (step 5.2.1).
pub(crate) fn unissued(
    alloc: Global,
    class: &[HashedNode<'_>],
    canon: &Issuer,
) -> Result<Vec<u32>, NoMemory>
    ensures { IfOk result (λ nodes. nodes.items ≡ filter (has_no_canonical canon.now.list) (map node_of class.now)) }
{
    let mut nodes = Vec::new(alloc);
    for node in class {
        if has_no_identifier(canon, node.node()) {
            nodes.push(node.node())?;
        }
    }
    Ok(nodes)
}

// The issuer of a new call: it has issued for the start node alone (steps 5.2.2 and 5.2.3).
fn fresh_issuer(alloc: Global, node: u32) -> Result<Issuer, NoMemory>
    requires { node < u32.MAX }
    ensures list { IfOk result (λ issuer. issuer.list ≡ node ∷ []) }
    ensures prefix { IfOk result (λ issuer. issuer.prefix ≡ Prefix.Temporary) }
{
    let mut issuer = Issuer::new(alloc, Prefix::Temporary);
    issuer.issue(node)?;
    Ok(issuer)
}

// The result of one start node (step 5.2.4).
fn result_from(
    alloc: Global,
    dataset: &Dataset,
    first: &[HexHash],
    node: u32,
    canon: &Issuer,
    budget: &mut Budget,
    ties: &mut TieLog,
    profile: Profile,
) -> Result<PathResult, Stop>
    requires start { MayStart (dataset_of dataset.now) canon.now.list node }
    requires first { first.now ≡ map (hash_first_degree_quads (meaning profile) (dataset_of dataset.now)) (numbers_below (length dataset.now.labels)) }
    requires canonical { canon.now.prefix ≡ Prefix.Canonical }
    requires few_ties { ties.old.total ≤ budget.old.spent }
    ensures is { IfOk result (λ r. r ≡ result_of (meaning profile) (dataset_of dataset.now) canon.now.list node) }
    ensures limit { budget.new.limit ≡ budget.old.limit }
    ensures spent { OnOk result (budget.new.spent ≡ budget.old.spent + (counted_start (meaning profile) (dataset_of dataset.now) canon.now.list node).trace.units) }
    ensures ties { OnOk result (LogsAll (dataset_of dataset.now) (counted_start (meaning profile) (dataset_of dataset.now) canon.now.list node).trace.ties ties.old ties.new) }
    ensures fewer { OnOk result (ties.new.total + budget.old.spent < budget.new.spent + ties.old.total) }
    ensures over { result ≡ Err Stop.WorkLimit → budget.old.limit < budget.old.spent + (counted_start (meaning profile) (dataset_of dataset.now) canon.now.list node).trace.units }
{
    let _nodes = dataset.node_count();
    let issuer = fresh_issuer(alloc, node)?;
    let (hash, issued) = n_degree(
        alloc, dataset, first, canon, node, issuer, budget, ties, profile,
    )?;
    Ok(PathResult {
        start: node,
        hash,
        list: NodeList::new(issued_nodes(alloc, &issued)?),
    })
}

fn keep(results: &mut Vec<PathResult>, found: PathResult) -> Result<(), NoMemory>
    ensures { OnOk result (results.new.items ≡ results.old.items ++ found ∷ []) }
{
    results.push(found)?;
    Ok(())
}

// The results of these start nodes, in their order.
pub(crate) fn results_from(
    alloc: Global,
    dataset: &Dataset,
    first: &[HexHash],
    nodes: &[u32],
    canon: &Issuer,
    budget: &mut Budget,
    ties: &mut TieLog,
    profile: Profile,
) -> Result<Vec<PathResult>, Stop>
    requires starts { All (MayStart (dataset_of dataset.now) canon.now.list) nodes.now }
    requires first { first.now ≡ map (hash_first_degree_quads (meaning profile) (dataset_of dataset.now)) (numbers_below (length dataset.now.labels)) }
    requires canonical { canon.now.prefix ≡ Prefix.Canonical }
    requires few_ties { ties.old.total ≤ budget.old.spent }
    ensures are { IfOk result (λ results. results.items ≡ map (result_of (meaning profile) (dataset_of dataset.now) canon.now.list) nodes.now) }
    ensures limit { budget.new.limit ≡ budget.old.limit }
    ensures spent { OnOk result (budget.new.spent ≡ budget.old.spent + (trace_of_starts (meaning profile) (dataset_of dataset.now) canon.now.list nodes.now).units) }
    ensures ties { OnOk result (LogsAll (dataset_of dataset.now) (trace_of_starts (meaning profile) (dataset_of dataset.now) canon.now.list nodes.now).ties ties.old ties.new) }
    ensures fewer { OnOk result (ties.new.total + length nodes.now ≤ budget.new.spent) }
    ensures over { result ≡ Err Stop.WorkLimit → budget.old.limit < budget.old.spent + (trace_of_starts (meaning profile) (dataset_of dataset.now) canon.now.list nodes.now).units }
{
    let mut results = Vec::new(alloc);
    for node in nodes {
        let found = result_from(alloc, dataset, first, *node, canon, budget, ties, profile)?;
        keep(&mut results, found)?;
    }
    Ok(results)
}
