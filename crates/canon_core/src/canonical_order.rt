//! The nodes in the order of their canonical identifiers.
ghost use Rattle.std.specs.Prelude.{◌≡◌, ◌<◌, length, map, IfOk, OnOk};
ghost use Rattle.rdf_terms.specs.Document.{dataset as dataset_of};
ghost use Rattle.rdf_terms.specs.Lists.{numbers_below};
ghost use Rattle.canon_model.specs.FirstDegree.{hash_first_degree_quads};
ghost use Rattle.canon_model.specs.Meaning.{meaning};
ghost use Rattle.canon_model.specs.CountedRun.{counted_run};
ghost use Rattle.canon_model.specs.JoinedTies.{ties_of_run};
ghost use Rattle.canon_model.specs.Output.{units_of};
ghost use Rattle.ndegree_hash.specs.Log.{LogsAll};
ghost use Rattle.canon_core.specs.Classes.{IsInHashOrder, alone_under_hashes};

use crate::classes::issue_classes;
use crate::hashed_node::HashedNode;
use crate::issuing::{issue_all, issued_nodes};
use crate::node_order::{alone_nodes, in_hash_order};
use canon_model::{HexHash, Profile};
use dataset_index::Dataset;
use first_degree::FirstTable;
use id_issuer::Issuer;
use ndegree_hash::{Budget, Stop, TieLog};
use rdf_terms::Prefix;
use std::alloc::Global;

// Issues canonical identifiers for the nodes that are alone under their hashes, and then by way of the other classes
// (steps 4 and 5).
fn order_from(
    alloc: Global,
    dataset: &Dataset,
    first: &[HexHash],
    nodes: &[HashedNode<'_>],
    alone: &[u32],
    budget: &mut Budget,
    ties: &mut TieLog,
    profile: Profile,
) -> Result<Vec<u32>, Stop>
    requires nodes { IsInHashOrder (meaning profile) (dataset_of dataset.now) nodes.now }
    requires alone { alone.now ≡ alone_under_hashes (meaning profile) (dataset_of dataset.now) }
    requires first { first.now ≡ map (hash_first_degree_quads (meaning profile) (dataset_of dataset.now)) (numbers_below (length dataset.now.labels)) }
    requires spent { budget.old.spent ≡ 0 }
    requires total { ties.old.total ≡ 0 }
    ensures order { IfOk result (λ order. order.items ≡ (counted_run (meaning profile) (dataset_of dataset.now)).value) }
    ensures limit { budget.new.limit ≡ budget.old.limit }
    ensures spent { OnOk result (budget.new.spent ≡ units_of (meaning profile) (dataset_of dataset.now)) }
    ensures ties { OnOk result (LogsAll (dataset_of dataset.now) (ties_of_run (meaning profile) (dataset_of dataset.now)) ties.old ties.new) }
    ensures over { result ≡ Err Stop.WorkLimit → budget.old.limit < units_of (meaning profile) (dataset_of dataset.now) }
{
    let _nodes = dataset.node_count();
    let mut canon = Issuer::new(alloc, Prefix::Canonical);
    issue_all(&mut canon, alone)?;
    issue_classes(
        alloc, dataset, first, nodes, &mut canon, budget, ties, profile,
    )?;
    Ok(issued_nodes(alloc, &canon)?)
}

// The list of the canonical issuer (RDF Dataset Canonicalization, section 4.4, steps 3 to 5).
pub(crate) fn canonical_order(
    alloc: Global,
    dataset: &Dataset,
    budget: &mut Budget,
    ties: &mut TieLog,
    profile: Profile,
) -> Result<Vec<u32>, Stop>
    requires spent { budget.old.spent ≡ 0 }
    requires total { ties.old.total ≡ 0 }
    ensures order { IfOk result (λ order. order.items ≡ (counted_run (meaning profile) (dataset_of dataset.now)).value) }
    ensures limit { budget.new.limit ≡ budget.old.limit }
    ensures spent { OnOk result (budget.new.spent ≡ units_of (meaning profile) (dataset_of dataset.now)) }
    ensures ties { OnOk result (LogsAll (dataset_of dataset.now) (ties_of_run (meaning profile) (dataset_of dataset.now)) ties.old ties.new) }
    ensures over { result ≡ Err Stop.WorkLimit → budget.old.limit < units_of (meaning profile) (dataset_of dataset.now) }
{
    let count = dataset.node_count();
    let table = FirstTable::build(alloc, dataset, profile)?;
    let nodes = in_hash_order(alloc, table.all(), count)?;
    let alone = alone_nodes(alloc, &nodes)?;
    if alone.len() == count as usize {
        return Ok(alone);
    }
    order_from(
        alloc,
        dataset,
        table.all(),
        &nodes,
        &alone,
        budget,
        ties,
        profile,
    )
}
