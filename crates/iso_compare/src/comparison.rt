//! Two datasets are compared by their canonical forms.

ghost use Rattle.std.specs.Prelude.{◌≡◌, IfOk, OnOk};
ghost use Rattle.rdf_terms.specs.Dataset.{Dataset as AbstractDataset};
ghost use Rattle.rdf_terms.specs.Document.{dataset as dataset_of};
ghost use Rattle.canon_model.specs.Hashing.{Hashing};
ghost use Rattle.canon_model.specs.Meaning.{meaning};
ghost use Rattle.canon_model.specs.Output.{IsWithinLimit};
ghost use Rattle.canon_core.specs.Canonical.{IsCanon};
ghost use Rattle.iso_compare.specs.Comparison.{AreApart, IsVerdict, OnePasses};

use crate::pairing::pairing;
use crate::verdict::Verdict;
use canon_core::{Canon, canonicalise};
use canon_model::Profile;
use dataset_index::Dataset;
use ndegree_hash::{Stop, Tie};
use rdf_terms::NoMemory;
use std::alloc::Global;

// The verdict where the forms differ.
fn apart(first: Option<Tie>, second: Option<Tie>) -> Verdict
    ensures { AreApart first second result }
{
    match (first, second) {
        (Some(tie), Some(other)) => Verdict::Undecided(tie, other),
        _ => Verdict::Different,
    }
}

/// Compares two datasets by what `canonicalise` gave for each, under one profile. Neither dataset is
/// needed any more.
pub fn compare_forms(alloc: Global, first: Canon, second: Canon) -> Result<Verdict, NoMemory>
    ensures { IfOk result (λ verdict. (ρ : Hashing) (A B : AbstractDataset) → IsCanon ρ A first → IsCanon ρ B second → IsVerdict ρ A B verdict) }
{
    if first.bytes.as_slice() == second.bytes.as_slice() {
        let map = pairing(alloc, first.order.as_slice(), second.order.as_slice())?;
        return Ok(Verdict::Same(map));
    }
    Ok(apart(first.unsettled, second.unsettled))
}

/// Canonicalises the first dataset and then the second, each within the limit and under the default
/// profile, and compares them. `WorkLimit` where one of the two runs passes the limit.
pub fn compare(alloc: Global, a: &Dataset, b: &Dataset, limit: u64) -> Result<Verdict, Stop>
    ensures verdict { IfOk result (IsVerdict (meaning Profile.DEFAULT) (dataset_of a.now) (dataset_of b.now)) }
    ensures first_within { OnOk result (IsWithinLimit (meaning Profile.DEFAULT) (dataset_of a.now) limit) }
    ensures second_within { OnOk result (IsWithinLimit (meaning Profile.DEFAULT) (dataset_of b.now) limit) }
    ensures over { result ≡ Err Stop.WorkLimit → OnePasses (meaning Profile.DEFAULT) (dataset_of a.now) (dataset_of b.now) limit }
{
    let first = canonicalise(alloc, a, limit, Profile::DEFAULT)?;
    let second = canonicalise(alloc, b, limit, Profile::DEFAULT)?;
    Ok(compare_forms(alloc, first, second)?)
}
