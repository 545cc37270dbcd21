//! The canonical form of a dataset, within a limit of work.
ghost use Rattle.std.specs.Prelude.{◌≡◌, length, IfOk, OnOk};
ghost use Rattle.rdf_terms.specs.Dataset.{IsValid};
ghost use Rattle.rdf_terms.specs.Document.{dataset as dataset_of};
ghost use Rattle.canonical_writer.specs.Determined.{ListsNodes};
ghost use Rattle.canon_model.specs.Meaning.{meaning};
ghost use Rattle.canon_model.specs.Allowed.{canonical_form};
ghost use Rattle.canon_model.specs.Output.{IsWithinLimit, PassesLimit};
ghost use Rattle.canon_core.specs.Canonical.{IsCanon};

use crate::canon::Canon;
use crate::canonical_order::canonical_order;
use canon_model::Profile;
use canonical_writer::{ListNames, write_sorted};
use dataset_index::Dataset;
use ndegree_hash::{Budget, Stop, TieLog};
use rdf_terms::{Bytes, NoMemory, NodeList, Prefix};
use std::alloc::Global;

// The canonical lines under identifiers by the places of this list, which holds every node.
fn write_in_order(alloc: Global, dataset: &Dataset, order: &[u32]) -> Result<Bytes, NoMemory>
    requires order { ListsNodes (length dataset.now.labels) order.now }
    requires valid { IsValid (dataset_of dataset.now) }
    ensures { IfOk result (λ text. text ≡ canonical_form (dataset_of dataset.now) order.now) }
{
    let names = ListNames::new(alloc, order, Prefix::Canonical)?;
    write_sorted(alloc, dataset.terms(), dataset.quads(), &names)
}

/// The Canonicalization Algorithm (RDF Dataset Canonicalization, section 4.4): the canonical form of a dataset, and
/// what the run counted on the way. One unit of the limit is one call of Hash N-Degree Quads or one permutation that
/// is begun. After a stop nothing has changed.
pub fn canonicalise(
    alloc: Global,
    dataset: &Dataset,
    limit: u64,
    profile: Profile,
) -> Result<Canon, Stop>
    ensures canon { IfOk result (IsCanon (meaning profile) (dataset_of dataset.now)) }
    ensures profile { IfOk result (λ canon. canon.profile ≡ profile) }
    ensures within { OnOk result (IsWithinLimit (meaning profile) (dataset_of dataset.now) limit) }
    ensures over { result ≡ Err Stop.WorkLimit → PassesLimit (meaning profile) (dataset_of dataset.now) limit }
{
    let _nodes = dataset.node_count();
    let mut budget = Budget::new(limit);
    let mut ties = TieLog::new();
    let order = canonical_order(alloc, dataset, &mut budget, &mut ties, profile)?;
    let bytes = write_in_order(alloc, dataset, &order)?;
    Ok(Canon {
        bytes,
        order: NodeList::new(order),
        units: budget.spent(),
        ties: ties.total(),
        joined: ties.joined(),
        unsettled: ties.into_unsettled(),
        profile,
    })
}
