//! Another output that the standard allows for a dataset, or why there is none to write.
ghost use Rattle.std.specs.Prelude.{◌≡◌, IfOk, IfErr, MatchOption};
ghost use Rattle.rdfc_cli.specs.Outputs.{IsOtherOutput, IsOtherEnd};

use crate::ends::status_of_run;
use crate::options::Settings;
use crate::output::{Output, canonical_run};
use crate::status::Status;
use dataset_index::Dataset;
use ndegree_hash::Tie;
use other_output::{Openness, other_form};
use std::alloc::Global;
use std::hash::RandomState;

// How a run ends that found no other output along the first tie that is not joined.
fn none_found(unsettled: Option<Tie>) -> Status
    ensures { MatchOption unsettled (result ≡ Status.NoOther) (λ tie. result ≡ Status.NotFound tie) }
{
    match unsettled {
        None => Status::NoOther,
        Some(tie) => Status::NotFound(tie),
    }
}

// Another output of a dataset, or how the run stops. Each of its two canonical runs has the whole limit.
pub(crate) fn other_output(
    alloc: Global,
    keys: RandomState,
    settings: Settings,
    dataset: &Dataset,
) -> Result<Output, Status>
    ensures output { IfOk result (IsOtherOutput settings dataset.now) }
    ensures stops { IfErr result (IsOtherEnd settings dataset.now) }
{
    let canon = canonical_run(alloc, settings, dataset)?;
    match other_form(alloc, dataset, &canon, settings.limit, keys) {
        Ok(Openness::Another(text)) => Ok(Output {
            text,
            unsettled: None,
        }),
        Ok(Openness::Settled) => Err(Status::NoOther),
        Ok(Openness::NotKnown) => Err(none_found(canon.unsettled)),
        Err(stop) => Err(status_of_run(stop, settings.limit)),
    }
}
