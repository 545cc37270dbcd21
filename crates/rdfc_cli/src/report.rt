//! The texts of the reports: what each node is named, and what a run counted.
ghost use Rattle.std.specs.Prelude.{◌≡◌, ℕ, ◌<◌, ◌++◌, length, IfOk, IfSome, OnOk, codes, flat_map, Some};
ghost use Rattle.rdf_terms.specs.Lists.{In, AreDistinct};
ghost use Rattle.rdf_terms.specs.Numeral.{numeral};
ghost use Rattle.rdfc_cli.specs.Reports.{label_text, map_text, number_line, spaced_label, list_line, tie_lines, count_lines, tie_report, HasNodesOf};

use crate::decimal::Decimal;
use canon_core::Canon;
use dataset_index::Dataset;
use ndegree_hash::Tie;
use rdf_terms::{Bytes, Label, NoMemory};
use std::alloc::Global;

// Appends a decimal numeral.
pub(crate) fn push_number(out: &mut Vec<u8>, number: u64) -> Result<(), NoMemory>
    ensures { OnOk result (out.new.items ≡ out.old.items ++ numeral number) }
{
    out.extend_from_slice(Decimal::of(number).as_bytes())?;
    Ok(())
}

// Appends what a document calls a node.
pub(crate) fn push_label(out: &mut Vec<u8>, label: &Label) -> Result<(), NoMemory>
    ensures { OnOk result (out.new.items ≡ out.old.items ++ label_text label.now) }
{
    match label {
        Label::Named(name) => {
            out.extend_from_slice(b"_:")?;
            out.extend_from_slice(name.as_str().as_bytes())?;
        }
        Label::Anonymous(number) => {
            out.extend_from_slice(b"[")?;
            push_number(out, *number as u64)?;
            out.extend_from_slice(b"]")?;
        }
    }
    Ok(())
}

// The line of the node with this label, whose place in the canonical list this is.
fn push_map_line(out: &mut Vec<u8>, label: &Label, place: usize) -> Result<(), NoMemory>
    ensures { OnOk result (out.new.items ≡ out.old.items ++ (label_text label.now ++ (codes " _:c14n" ++ (numeral place ++ codes "\n")))) }
{
    push_label(out, label)?;
    out.extend_from_slice(b" _:c14n")?;
    push_number(out, place as u64)?;
    out.extend_from_slice(b"\n")?;
    Ok(())
}

// A line for each node of the canonical list, in its order: its label and its canonical identifier.
pub(crate) fn map_of_names(
    alloc: Global,
    dataset: &Dataset,
    order: &[u32],
) -> Result<Bytes, NoMemory>
    requires nodes { (n : ℕ) → In n order.now → n < length dataset.now.labels }
    requires once { AreDistinct order.now }
    ensures { IfOk result (λ text. text ≡ map_text dataset.now.labels order.now) }
{
    let mut out = Vec::new(alloc);
    for (place, node) in order.iter().enumerate() {
        push_map_line(&mut out, dataset.label(*node), place)?;
    }
    Ok(Bytes::new(out))
}

// Appends a line with a word and a number.
pub(crate) fn push_count(out: &mut Vec<u8>, word: &str, number: u64) -> Result<(), NoMemory>
    ensures { OnOk result (out.new.items ≡ out.old.items ++ number_line word.now number) }
{
    out.extend_from_slice(word.as_bytes())?;
    out.extend_from_slice(b" ")?;
    push_number(out, number)?;
    out.extend_from_slice(b"\n")?;
    Ok(())
}

// The labels of the nodes, each behind a space.
fn push_labels(out: &mut Vec<u8>, dataset: &Dataset, nodes: &[u32]) -> Result<(), NoMemory>
    requires { (n : ℕ) → In n nodes.now → n < length dataset.now.labels }
    ensures { OnOk result (out.new.items ≡ out.old.items ++ flat_map (spaced_label dataset.now.labels) nodes.now) }
{
    for node in nodes {
        out.extend_from_slice(b" ")?;
        push_label(out, dataset.label(*node))?;
    }
    Ok(())
}

fn push_list(
    out: &mut Vec<u8>,
    word: &str,
    dataset: &Dataset,
    nodes: &[u32],
) -> Result<(), NoMemory>
    requires { (n : ℕ) → In n nodes.now → n < length dataset.now.labels }
    ensures { OnOk result (out.new.items ≡ out.old.items ++ list_line word.now dataset.now.labels nodes.now) }
{
    out.extend_from_slice(word.as_bytes())?;
    push_labels(out, dataset, nodes)?;
    out.extend_from_slice(b"\n")?;
    Ok(())
}

fn push_tie(out: &mut Vec<u8>, dataset: &Dataset, tie: &Tie) -> Result<(), NoMemory>
    requires { HasNodesOf (length dataset.now.labels) tie.now }
    ensures { OnOk result (out.new.items ≡ out.old.items ++ tie_lines dataset.now.labels (Some tie.now)) }
{
    push_list(out, "canon", dataset, tie.canon.as_slice())?;
    push_list(out, "left", dataset, tie.left.as_slice())?;
    push_list(out, "right", dataset, tie.right.as_slice())
}

// The lists of the tie, if there is one.
fn push_unsettled(
    out: &mut Vec<u8>,
    dataset: &Dataset,
    unsettled: &Option<Tie>,
) -> Result<(), NoMemory>
    requires { IfSome unsettled.now (HasNodesOf (length dataset.now.labels)) }
    ensures { OnOk result (out.new.items ≡ out.old.items ++ tie_lines dataset.now.labels unsettled.now) }
{
    match unsettled {
        None => Ok(()),
        Some(tie) => push_tie(out, dataset, tie),
    }
}

// Appends what the run counted.
pub(crate) fn push_counts(out: &mut Vec<u8>, canon: &Canon) -> Result<(), NoMemory>
    ensures { OnOk result (out.new.items ≡ out.old.items ++ count_lines canon.now.units canon.now.ties canon.now.joined) }
{
    push_count(out, "units", canon.units)?;
    push_count(out, "ties", canon.ties)?;
    push_count(out, "joined", canon.joined)
}

// What the run counted, and its first tie that is not joined.
pub(crate) fn report_of_ties(
    alloc: Global,
    dataset: &Dataset,
    canon: &Canon,
) -> Result<Bytes, NoMemory>
    requires { IfSome canon.now.unsettled (HasNodesOf (length dataset.now.labels)) }
    ensures { IfOk result (λ text. text ≡ tie_report dataset.now.labels canon.now.units canon.now.ties canon.now.joined canon.now.unsettled) }
{
    let mut out = Vec::new(alloc);
    push_counts(&mut out, canon)?;
    push_unsettled(&mut out, dataset, &canon.unsettled)?;
    Ok(Bytes::new(out))
}
