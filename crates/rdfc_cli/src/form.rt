//! What is kept of a file that is compared with another.
ghost use Rattle.std.specs.Prelude.{◌≡◌, ◌≤◌, IfOk, IfErr, IfSome};
ghost use Rattle.rdf_terms.specs.Lists.{Text};
ghost use Rattle.rdf_terms.specs.Document.{dataset as dataset_of};
ghost use Rattle.rdfc_cli.specs.Answers.{Content, Accepts, seen};
ghost use Rattle.rdfc_cli.specs.FileFaults.{content_of, IsFileFault};
ghost use Rattle.rdfc_cli.specs.Forms.{IsRun, IsFormOf};
ghost use Rattle.rdfc_cli.specs.Requests.{syntax_of, HasGoodBase};

use crate::dataset_file::read_dataset;
use crate::files::FileFault;
use crate::options::{Settings, Syntax};
use canon_core::{Canon, canonicalise};
use dataset_index::Dataset;
use ndegree_hash::Stop;
use outside::Shelf;
use rdf_terms::{Label, LabelRef, NoMemory};
use std::alloc::Global;
use std::hash::RandomState;

// The canonical run of a file's dataset, `None` where it passes the limit, and what the file calls its nodes. The
// dataset itself, with its texts, is given up.
#[derive(Debug, Drop)]
pub(crate) struct Form {
    pub(crate) canon: Option<Canon>,
    pub(crate) labels: Vec<Label>,
}

fn copy_of_label(alloc: Global, label: &Label) -> Result<Label, NoMemory>
    ensures { IfOk result (λ copy. copy ≡ label.now) }
{
    match label {
        Label::Named(name) => LabelRef::Named(name.as_str()).to_label(alloc),
        Label::Anonymous(number) => Ok(Label::Anonymous(*number)),
    }
}

// What the file calls its nodes, in their order.
fn copy_of_labels(alloc: Global, dataset: &Dataset) -> Result<Vec<Label>, NoMemory>
    ensures { IfOk result (λ labels. labels.items ≡ dataset.now.labels) }
{
    let mut labels = Vec::new(alloc);
    for node in 0..dataset.node_count() {
        labels.push(copy_of_label(alloc, dataset.label(node))?)?;
    }
    Ok(labels)
}

// What the canonical run gives, where it is within the limit.
fn run_of(alloc: Global, settings: Settings, dataset: &Dataset) -> Result<Option<Canon>, NoMemory>
    ensures { IfOk result (IsRun settings (dataset_of dataset.now)) }
{
    match canonicalise(alloc, dataset, settings.limit, settings.profile) {
        Ok(canon) => Ok(Some(canon)),
        Err(Stop::WorkLimit) => Ok(None),
        Err(Stop::NoMemory) => Err(NoMemory),
    }
}

fn form_of_dataset(alloc: Global, settings: Settings, dataset: &Dataset) -> Result<Form, NoMemory>
    ensures { IfOk result (IsFormOf settings (content_of dataset.now)) }
{
    let canon = run_of(alloc, settings, dataset)?;
    let labels = copy_of_labels(alloc, dataset)?;
    Ok(Form { canon, labels })
}

// The form of a file, which is read and judged whole before its run begins.
pub(crate) fn form_of_file<S: Shelf>(
    alloc: Global,
    keys: RandomState,
    settings: Settings,
    shelf: &mut S,
    syntax: Syntax<'_>,
    file: &str,
) -> Result<Form, FileFault>
    requires base { HasGoodBase (syntax_of syntax) }
    ensures form { IfOk result (λ form. (content : Content) × IfSome (S.told shelf.old file.now) (λ told. Accepts (syntax_of syntax.entry) told content) × IsFormOf settings content form) }
    ensures fault { IfErr result (IsFileFault (seen (syntax_of syntax.entry) S.told S.faults shelf.old shelf.new file.now)) }
    ensures told { (other : Text) → S.told shelf.new other ≡ S.told shelf.old other }
    ensures never_fell { (other : Text) → S.faults shelf.old other ≤ S.faults shelf.new other }
{
    let dataset = read_dataset(alloc, keys, shelf, syntax, file)?;
    Ok(form_of_dataset(alloc, settings, &dataset)?)
}
