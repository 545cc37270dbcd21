//! The document that is made from a number, and the summary of its canonical run.
ghost use Rattle.std.specs.Prelude.{◌≡◌, ◌≤◌, ◌++◌, length, IfOk, IfErr, OnOk, codes};
ghost use Rattle.rdf_terms.specs.Document.{dataset as dataset_of, statements};
ghost use Rattle.canon_model.specs.Meaning.{meaning};
ghost use Rattle.canon_core.specs.Canonical.{IsCanon};
ghost use Rattle.load_document.specs.LoadDocument.{load_document};
ghost use Rattle.rdfc_cli.specs.Answers.{Accepts, States};
ghost use Rattle.rdfc_cli.specs.FileFaults.{content_of};
ghost use Rattle.rdfc_cli.specs.Outputs.{IsRunStop, IsSummaryOutput};
ghost use Rattle.rdfc_cli.specs.Words.Syntax.{nquads};
ghost use Rattle.rdfc_cli.specs.Reports.{IsSummary, summary_text};

use crate::options::Settings;
use crate::output::{Output, canonical_run};
use crate::report::{push_count, push_counts};
use crate::status::Status;
use canon_core::Canon;
use dataset_index::Dataset;
use load_document::{GREATEST_NUMBER, LEAST_NUMBER, generate};
use nquads_reader::{ReadFault, read_nquads};
use rdf_terms::{Bytes, NoMemory, Parsed};
use std::alloc::Global;
use std::hash::RandomState;

// What the document of the number states. It has no fault, so no reader refuses it.
fn read_made(alloc: Global, keys: RandomState, number: u32) -> Result<Parsed, NoMemory>
    requires least { LEAST_NUMBER ≤ number }
    requires greatest { number ≤ GREATEST_NUMBER }
    ensures { IfOk result (λ parsed. States nquads (load_document number) parsed.labels (statements parsed)) }
{
    let bytes = generate(alloc, number)?;
    match read_nquads(alloc, keys, bytes.as_slice()) {
        Ok(parsed) => Ok(parsed),
        Err(ReadFault::NoMemory) => Err(NoMemory),
        Err(_) => unreachable!(),
    }
}

// The dataset of the document that is made from the number.
pub(crate) fn made_dataset(
    alloc: Global,
    keys: RandomState,
    number: u32,
) -> Result<Dataset, NoMemory>
    requires least { LEAST_NUMBER ≤ number }
    requires greatest { number ≤ GREATEST_NUMBER }
    ensures { IfOk result (λ d. Accepts nquads (load_document number) (content_of d)) }
{
    let parsed = read_made(alloc, keys, number)?;
    let dataset = Dataset::build(alloc, parsed)?;
    // Its count tells that the dataset is valid.
    let _nodes = dataset.node_count();
    Ok(dataset)
}

fn push_hash(out: &mut Vec<u8>, canon: &Canon) -> Result<(), NoMemory>
    ensures { OnOk result (out.new.items ≡ out.old.items ++ (codes "hash " ++ ((meaning canon.now.profile).hash canon.now.bytes ++ codes "\n"))) }
{
    let hash = canon.hash();
    out.extend_from_slice(b"hash ")?;
    out.extend_from_slice(hash.as_bytes())?;
    out.extend_from_slice(b"\n")?;
    Ok(())
}

// How many quads and nodes there are, what the run counted, and the hash.
fn summary(alloc: Global, dataset: &Dataset, canon: &Canon) -> Result<Bytes, NoMemory>
    ensures { IfOk result (λ text. text ≡ summary_text (length dataset.now.quads) (length dataset.now.labels) canon.now.units canon.now.ties canon.now.joined ((meaning canon.now.profile).hash canon.now.bytes)) }
{
    let mut out = Vec::new(alloc);
    push_count(&mut out, "quads", dataset.quads().len() as u64)?;
    push_count(&mut out, "nodes", dataset.node_count() as u64)?;
    push_counts(&mut out, canon)?;
    push_hash(&mut out, canon)?;
    Ok(Bytes::new(out))
}

fn output_of_run(alloc: Global, dataset: &Dataset, canon: Canon) -> Result<Output, NoMemory>
    requires { IsCanon (meaning canon.profile) (dataset_of dataset.now) canon }
    ensures text { IfOk result (λ output. IsSummary (meaning canon.profile) (dataset_of dataset.now) output.text) }
    ensures unsettled { IfOk result (λ output. output.unsettled ≡ canon.unsettled) }
{
    let text = summary(alloc, dataset, &canon)?;
    Ok(Output {
        text,
        unsettled: canon.unsettled,
    })
}

// The summary of a dataset, or how the run stops.
pub(crate) fn summary_output(
    alloc: Global,
    settings: Settings,
    dataset: &Dataset,
) -> Result<Output, Status>
    ensures output { IfOk result (IsSummaryOutput settings dataset.now) }
    ensures stops { IfErr result (IsRunStop settings dataset.now) }
{
    let canon = canonical_run(alloc, settings, dataset)?;
    Ok(output_of_run(alloc, dataset, canon)?)
}
