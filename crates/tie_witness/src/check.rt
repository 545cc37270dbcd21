//! The witness of a tie, from its two lists.

ghost use Rattle.std.specs.Prelude.{IfOk};
ghost use Rattle.rdf_terms.specs.Document.{dataset as dataset_of};
ghost use Rattle.tie_witness.specs.Witness.{MayBeChecked, TailMayBeChecked, IsChecked, right_of};

use crate::carry::carries_moved;
use crate::moved::moved_pairs;
use dataset_index::Dataset;
use id_issuer::Issuer;
use rdf_terms::{Bijection, NoMemory, PairList};
use std::alloc::Global;

/// The nodes that the exchange of one list for the other moves, where it carries the quads of the
/// dataset exactly to themselves. The lists begin alike in the places of the nodes passed in.
///
/// It takes the time of the two lists and of the quads that mention a node that is moved.
pub fn witness(
    alloc: Global,
    dataset: &Dataset,
    canon: &Issuer,
    passed: u32,
    l: &[u32],
    m: &[u32],
) -> Result<Option<Bijection>, NoMemory>
    requires { MayBeChecked (dataset_of dataset.now) canon.now.list passed l.now m.now }
    ensures { IfOk result (IsChecked (dataset_of dataset.now) canon.now.list l.now m.now) }
{
    let tail = &m[passed as usize..];
    let found = tail_witness(alloc, dataset, canon, passed, l, tail)?;
    Ok(found)
}

/// The same, where of the right list what stands behind the nodes passed in is at hand.
pub fn tail_witness(
    alloc: Global,
    dataset: &Dataset,
    canon: &Issuer,
    passed: u32,
    left: &[u32],
    tail: &[u32],
) -> Result<Option<Bijection>, NoMemory>
    requires { TailMayBeChecked (dataset_of dataset.now) canon.now.list passed left.now tail.now }
    ensures { IfOk result (IsChecked (dataset_of dataset.now) canon.now.list left.now (right_of passed left.now tail.now)) }
{
    let _nodes = dataset.node_count();
    let left_tail = &left[passed as usize..];
    if left_tail.len() != tail.len() {
        return Ok(None);
    }
    let pairs = moved_pairs(alloc, left_tail, tail)?;
    if !carries_moved(dataset, pairs.as_slice()) {
        return Ok(None);
    }
    Ok(Some(Bijection {
        pairs: PairList::new(pairs),
    }))
}
