//! What a command writes for a dataset.
ghost use Rattle.std.specs.Prelude.{◌≡◌, ◌++◌, IfOk, IfErr, codes};
ghost use Rattle.rdf_terms.specs.Document.{dataset as dataset_of};
ghost use Rattle.canon_model.specs.Meaning.{meaning};
ghost use Rattle.canon_core.specs.Canonical.{IsCanon};
ghost use Rattle.rdfc_cli.specs.Reports.{IsTextOf};
ghost use Rattle.rdfc_cli.specs.Forms.{IsCanonWithin};
ghost use Rattle.rdfc_cli.specs.Outputs.{IsTaskOutput, IsRunStop};

use crate::ends::status_of_run;
use crate::options::Settings;
use crate::report::{map_of_names, report_of_ties};
use crate::status::Status;
use crate::words::Task;
use canon_core::{Canon, canonicalise};
use dataset_index::Dataset;
use ndegree_hash::Tie;
use rdf_terms::{Bytes, NoMemory};
use std::alloc::Global;

// A text that is ready to be written, and the first tie of its run that is not joined.
#[derive(Debug, Drop)]
pub(crate) struct Output {
    pub(crate) text: Bytes,
    pub(crate) unsettled: Option<Tie>,
}

// The hash of the canonical form in lower-case hexadecimal, and a line feed.
fn hash_line(alloc: Global, canon: &Canon) -> Result<Bytes, NoMemory>
    ensures { IfOk result (λ line. line ≡ (meaning canon.now.profile).hash canon.now.bytes ++ codes "\n") }
{
    let hash = canon.hash();
    let mut line = Vec::new(alloc);
    line.extend_from_slice(hash.as_bytes())?;
    line.extend_from_slice(b"\n")?;
    Ok(Bytes::new(line))
}

// What the task writes of a canonical run.
fn text_of(alloc: Global, task: Task, dataset: &Dataset, canon: Canon) -> Result<Output, NoMemory>
    requires { IsCanon (meaning canon.profile) (dataset_of dataset.now) canon }
    ensures text { IfOk result (λ output. IsTextOf task (meaning canon.profile) (dataset_of dataset.now) dataset.now.labels output.text) }
    ensures unsettled { IfOk result (λ output. output.unsettled ≡ canon.unsettled) }
{
    let text = match task {
        Task::Canon => {
            return Ok(Output {
                text: canon.bytes,
                unsettled: canon.unsettled,
            });
        }
        Task::Hash => hash_line(alloc, &canon)?,
        Task::Map => map_of_names(alloc, dataset, canon.order.as_slice())?,
        Task::Ties => report_of_ties(alloc, dataset, &canon)?,
    };
    Ok(Output {
        text,
        unsettled: canon.unsettled,
    })
}

// The canonical run of a dataset, or how the run stops.
pub(crate) fn canonical_run(
    alloc: Global,
    settings: Settings,
    dataset: &Dataset,
) -> Result<Canon, Status>
    ensures run { IfOk result (IsCanonWithin settings (dataset_of dataset.now)) }
    ensures profile { IfOk result (λ canon. canon.profile ≡ settings.profile) }
    ensures stops { IfErr result (IsRunStop settings dataset.now) }
{
    match canonicalise(alloc, dataset, settings.limit, settings.profile) {
        Ok(canon) => Ok(canon),
        Err(stop) => Err(status_of_run(stop, settings.limit)),
    }
}

// What the task writes for a dataset, or how the run stops.
pub(crate) fn task_output(
    alloc: Global,
    task: Task,
    settings: Settings,
    dataset: &Dataset,
) -> Result<Output, Status>
    ensures output { IfOk result (IsTaskOutput task settings dataset.now) }
    ensures stops { IfErr result (IsRunStop settings dataset.now) }
{
    let canon = canonical_run(alloc, settings, dataset)?;
    Ok(text_of(alloc, task, dataset, canon)?)
}
