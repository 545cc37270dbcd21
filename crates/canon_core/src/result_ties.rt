//! The ties between results of one hash, which are tied.
ghost use Rattle.std.specs.Prelude.{◌≡◌, ◌+◌, ◌≤◌, length, OnOk};
ghost use Rattle.rdf_terms.specs.Document.{dataset as dataset_of};
ghost use Rattle.canon_model.specs.CountedRun.{ties_of_results, ties_with};
ghost use Rattle.ndegree_hash.specs.Log.{LogsInTurn};
ghost use Rattle.ndegree_hash.specs.OwedTies.{MayBeLogged};

use crate::path_result::PathResult;
use dataset_index::Dataset;
use id_issuer::Issuer;
use ndegree_hash::TieLog;
use rdf_terms::NoMemory;
use std::alloc::Global;

// Logs a tie with the first result of a hash for each other one that stands behind it.
fn log_with(
    alloc: Global,
    dataset: &Dataset,
    canon: &Issuer,
    first: &PathResult,
    others: &[PathResult],
    ties: &mut TieLog,
) -> Result<(), NoMemory>
    requires may { MayBeLogged (dataset_of dataset.now) (ties_with canon.now.list first.now others.now) }
    requires room { ties.old.total + length others.now ≤ u64.MAX }
    ensures logs { OnOk result (LogsInTurn (dataset_of dataset.now) (ties_with canon.now.list first.now others.now) ties.old ties.new) }
    ensures most { ties.new.total ≤ ties.old.total + length others.now }
{
    let mut head = first;
    for result in others {
        if head.has_hash_of(result) {
            ties.log(alloc, dataset, canon, 0, head.list(), result.list())?;
        } else {
            head = result;
        }
    }
    Ok(())
}

// Logs the ties of results that stand in the order of their hashes: each but the first of one hash is a tie with the
// first.
pub(crate) fn log_ties(
    alloc: Global,
    dataset: &Dataset,
    canon: &Issuer,
    results: &[PathResult],
    ties: &mut TieLog,
) -> Result<(), NoMemory>
    requires may { MayBeLogged (dataset_of dataset.now) (ties_of_results canon.now.list results.now) }
    requires room { ties.old.total + length results.now ≤ u64.MAX }
    ensures logs { OnOk result (LogsInTurn (dataset_of dataset.now) (ties_of_results canon.now.list results.now) ties.old ties.new) }
    ensures most { ties.new.total ≤ ties.old.total + length results.now }
{
    match results {
        [] => Ok(()),
        [first, others @ ..] => log_with(alloc, dataset, canon, first, others, ties),
    }
}
