//! Whether another output than that of a run is known.
ghost use Rattle.std.specs.Prelude.{◌≡◌, IfOk, OnOk, Err};
ghost use Rattle.rdf_terms.specs.Document.{dataset as dataset_of};
ghost use Rattle.canon_model.specs.Meaning.{meaning};
ghost use Rattle.canon_model.specs.Ties.{IsTie};
ghost use Rattle.ndegree_hash.specs.Log.{tie_of};
ghost use Rattle.canon_core.specs.Canonical.{IsCanon};
ghost use Rattle.other_output.specs.Along.{IsFormAlong, IsWithinLimitAlong, PassesLimitAlong};
ghost use Rattle.other_output.specs.Openness.{IsCompared, IsOpenness, OtherRunIsWithin, OtherRunPasses};

use crate::order::order_along;
use crate::renumbering::renumbered;
use canon_core::{Canon, canonicalise};
use canon_model::Profile;
use dataset_index::Dataset;
use ndegree_hash::{Stop, Tie};
use rdf_terms::Bytes;
use std::alloc::Global;
use std::hash::RandomState;

/// Whether another output than that of a run is known.
#[derive(Debug, Drop)]
pub enum Openness {
    /// Every tie is joined, so that there is one output.
    Settled,
    /// Another output.
    Another(Bytes),
    /// The run along the first tie that is not joined ends with the same output. Another one may be allowed all the
    /// same.
    NotKnown,
}

// The form of the dataset with its nodes numbered along the tie.
fn form_along(
    alloc: Global,
    dataset: &Dataset,
    tie: &Tie,
    limit: u64,
    profile: Profile,
    keys: RandomState,
) -> Result<Bytes, Stop>
    requires { IsTie (meaning profile) (dataset_of dataset.now) (tie_of tie.now) }
    ensures form { IfOk result (IsFormAlong (meaning profile) (dataset_of dataset.now) (tie_of tie.now)) }
    ensures within { OnOk result (IsWithinLimitAlong (meaning profile) (dataset_of dataset.now) (tie_of tie.now) limit) }
    ensures over { result ≡ Err Stop.WorkLimit → PassesLimitAlong (meaning profile) (dataset_of dataset.now) (tie_of tie.now) limit }
{
    let order = order_along(alloc, tie, dataset.node_count())?;
    let numbered = renumbered(alloc, dataset, &order, keys)?;
    let canon = canonicalise(alloc, &numbered, limit, profile)?;
    Ok(canon.bytes)
}

// The output of a run along a tie: another one, or the same.
fn compared(first: &Bytes, other: Bytes) -> Openness
    ensures { IsCompared first.now other result }
{
    if first.as_slice() == other.as_slice() {
        Openness::NotKnown
    } else {
        Openness::Another(other)
    }
}

/// Looks for another output than that of a run, by one more run: of the dataset with its nodes numbered along the
/// first tie that is not joined, under the same profile. The limit is that of this run alone, in the units of
/// `canonicalise`. What is answered does not depend on the keys. Meanwhile both datasets are in memory; after a stop
/// nothing has changed.
pub fn other_form(
    alloc: Global,
    dataset: &Dataset,
    canon: &Canon,
    limit: u64,
    keys: RandomState,
) -> Result<Openness, Stop>
    requires { IsCanon (meaning canon.now.profile) (dataset_of dataset.now) canon.now }
    ensures openness { IfOk result (IsOpenness (meaning canon.now.profile) (dataset_of dataset.now) canon.now) }
    ensures within { OnOk result (OtherRunIsWithin (meaning canon.now.profile) (dataset_of dataset.now) canon.now limit) }
    ensures over { result ≡ Err Stop.WorkLimit → OtherRunPasses (meaning canon.now.profile) (dataset_of dataset.now) canon.now limit }
{
    match &canon.unsettled {
        None => Ok(Openness::Settled),
        Some(tie) => {
            let other = form_along(alloc, dataset, tie, limit, canon.profile, keys)?;
            Ok(compared(&canon.bytes, other))
        }
    }
}
