//! The classes of nodes that have no canonical identifier yet, one after the other (RDF Dataset Canonicalization,
//! section 4.4, step 5).
ghost use Rattle.std.specs.Prelude.{◌≡◌, ◌+◌, ◌<◌, ◌≤◌, length, map, OnOk};
ghost use Rattle.rdf_terms.specs.Lists.{numbers_below};
ghost use Rattle.rdf_terms.specs.Document.{dataset as dataset_of};
ghost use Rattle.canon_model.specs.Meaning.{meaning};
ghost use Rattle.canon_model.specs.FirstDegree.{hash_first_degree_quads};
ghost use Rattle.canon_model.specs.Allowed.{nodes_with_hash};
ghost use Rattle.ndegree_hash.specs.Log.{LogsAll};
ghost use Rattle.canon_core.specs.HashOrder.{IsRanked, node_of, class_hash};
ghost use Rattle.canon_core.specs.Classes.{IsCanonicalSoFar, run_of_class, run_from};

use crate::hashed_node::HashedNode;
use crate::issuing::issue_results;
use crate::node_order::class_end;
use crate::path_result::sort_results;
use crate::result_ties::log_ties;
use crate::starts::{results_from, unissued};
use canon_model::{HexHash, Profile};
use dataset_index::Dataset;
use id_issuer::Issuer;
use ndegree_hash::{Budget, Stop, TieLog};
use rdf_terms::Prefix;
use std::alloc::Global;

// Issues canonical identifiers by way of the nodes of one class that have none.
fn issue_class(
    alloc: Global,
    dataset: &Dataset,
    first: &[HexHash],
    class: &[HashedNode<'_>],
    canon: &mut Issuer,
    budget: &mut Budget,
    ties: &mut TieLog,
    profile: Profile,
) -> Result<(), Stop>
    requires class { map node_of class.now ≡ nodes_with_hash (meaning profile) (dataset_of dataset.now) (class_hash class.now) }
    requires first { first.now ≡ map (hash_first_degree_quads (meaning profile) (dataset_of dataset.now)) (numbers_below (length dataset.now.labels)) }
    requires issued { IsCanonicalSoFar (dataset_of dataset.now) canon.old.list }
    requires canonical { canon.old.prefix ≡ Prefix.Canonical }
    requires few_ties { ties.old.total ≤ budget.old.spent }
    ensures list { OnOk result (canon.new.list ≡ (run_of_class (meaning profile) (dataset_of dataset.now) (class_hash class.now) canon.old.list).value) }
    ensures prefix { canon.new.prefix ≡ canon.old.prefix }
    ensures limit { budget.new.limit ≡ budget.old.limit }
    ensures spent { OnOk result (budget.new.spent ≡ budget.old.spent + (run_of_class (meaning profile) (dataset_of dataset.now) (class_hash class.now) canon.old.list).trace.units) }
    ensures ties { OnOk result (LogsAll (dataset_of dataset.now) (run_of_class (meaning profile) (dataset_of dataset.now) (class_hash class.now) canon.old.list).trace.ties ties.old ties.new) }
    ensures few_ties { OnOk result (ties.new.total ≤ budget.new.spent) }
    ensures over { result ≡ Err Stop.WorkLimit → budget.old.limit < budget.old.spent + (run_of_class (meaning profile) (dataset_of dataset.now) (class_hash class.now) canon.old.list).trace.units }
{
    let _nodes = dataset.node_count();
    let nodes = unissued(alloc, class, canon)?;
    let mut results = results_from(alloc, dataset, first, &nodes, canon, budget, ties, profile)?;
    let _limit = budget.limit();
    let _spent = budget.spent();
    sort_results(&mut results);
    log_ties(alloc, dataset, canon, &results, ties)?;
    issue_results(canon, &results)?;
    Ok(())
}

// Issues canonical identifiers by way of each class in turn.
pub(crate) fn issue_classes(
    alloc: Global,
    dataset: &Dataset,
    first: &[HexHash],
    nodes: &[HashedNode<'_>],
    canon: &mut Issuer,
    budget: &mut Budget,
    ties: &mut TieLog,
    profile: Profile,
) -> Result<(), Stop>
    requires nodes { IsRanked (hash_first_degree_quads (meaning profile) (dataset_of dataset.now)) (length dataset.now.labels) nodes.now }
    requires first { first.now ≡ map (hash_first_degree_quads (meaning profile) (dataset_of dataset.now)) (numbers_below (length dataset.now.labels)) }
    requires issued { IsCanonicalSoFar (dataset_of dataset.now) canon.old.list }
    requires canonical { canon.old.prefix ≡ Prefix.Canonical }
    requires few_ties { ties.old.total ≤ budget.old.spent }
    ensures list { OnOk result (canon.new.list ≡ (run_from (meaning profile) (dataset_of dataset.now) nodes.now canon.old.list).value) }
    ensures limit { budget.new.limit ≡ budget.old.limit }
    ensures spent { OnOk result (budget.new.spent ≡ budget.old.spent + (run_from (meaning profile) (dataset_of dataset.now) nodes.now canon.old.list).trace.units) }
    ensures ties { OnOk result (LogsAll (dataset_of dataset.now) (run_from (meaning profile) (dataset_of dataset.now) nodes.now canon.old.list).trace.ties ties.old ties.new) }
    ensures over { result ≡ Err Stop.WorkLimit → budget.old.limit < budget.old.spent + (run_from (meaning profile) (dataset_of dataset.now) nodes.now canon.old.list).trace.units }
{
    let _nodes = dataset.node_count();
    let mut start = 0;
    while start < nodes.len() {
        let end = class_end(nodes, start);
        issue_class(
            alloc,
            dataset,
            first,
            &nodes[start..end],
            canon,
            budget,
            ties,
            profile,
        )?;
        start = end;
    }
    Ok(())
}
