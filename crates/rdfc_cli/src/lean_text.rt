//! The texts of a lean form: the lean graph, and the map onto it.
ghost use Rattle.std.specs.Prelude.{◌≡◌, ℕ, ◌++◌, ◌<◌, length, IfOk, IfErr, OnOk};
ghost use Rattle.rdf_terms.specs.Document.{dataset as dataset_of, term_at};
ghost use Rattle.lean_search.specs.Lean.{IsLeanForm, IsLeanStop};
ghost use Rattle.rdfc_cli.specs.Leaning.{IsLeanText, IsLeanMapText, IsLeaning, line_of};
ghost use Rattle.rdfc_cli.specs.Outputs.{IsLeanOutput, IsLeanEnd};

use crate::ends::status_of_lean;
use crate::options::Settings;
use crate::output::Output;
use crate::status::Status;
use canonical_writer::{NumberNames, push_numbered, push_term, write_sorted};
use dataset_index::Dataset;
use lean_search::{LeanForm, LeanStop, lean};
use rdf_terms::{Bytes, NoMemory, Term, TermTable};
use std::alloc::Global;

// The canonical lines of the lean graph in byte order, with node k named `e` and k.
fn graph_text(alloc: Global, graph: &Dataset, form: &LeanForm) -> Result<Bytes, NoMemory>
    requires { (limit : ℕ) × IsLeanForm graph.now limit form.now }
    ensures { (limit : ℕ) → IsLeanForm graph.now limit form.now → IfOk result (IsLeanText (dataset_of graph.now) limit) }
{
    // They tell that the numbers of the quads are those of terms.
    let _quads = graph.quads();
    write_sorted(alloc, graph.terms(), form.quads.as_slice(), &NumberNames)
}

// The line of the node that is mapped to this term.
fn push_mapped(out: &mut Vec<u8>, node: u32, term: &Term) -> Result<(), NoMemory>
    ensures { OnOk result (out.new.items ≡ out.old.items ++ line_of node term.now) }
{
    push_numbered(out, b"_:e", node)?;
    out.extend_from_slice(b" ")?;
    push_term(out, term, &NumberNames)?;
    out.extend_from_slice(b"\n")?;
    Ok(())
}

// The line of the node that is mapped to the term with this number.
fn push_mapped_number(
    out: &mut Vec<u8>,
    terms: &TermTable,
    node: u32,
    number: u32,
) -> Result<(), NoMemory>
    requires { number < length terms.now }
    ensures { OnOk result (out.new.items ≡ out.old.items ++ line_of node (term_at terms.now number)) }
{
    match terms.get(number) {
        Some(term) => push_mapped(out, node, term),
        None => Ok(()),
    }
}

// A line for each node in order: its name, a space, and the term that it is mapped to as it stands in a canonical
// line, with node k named `e` and k.
fn map_text(alloc: Global, graph: &Dataset, form: &LeanForm) -> Result<Bytes, NoMemory>
    requires { (limit : ℕ) × IsLeanForm graph.now limit form.now }
    ensures { (limit : ℕ) → IsLeanForm graph.now limit form.now → IfOk result (IsLeanMapText (dataset_of graph.now) limit) }
{
    let map = form.map.as_slice();
    let mut out = Vec::new(alloc);
    for node in 0..graph.node_count() {
        push_mapped_number(&mut out, graph.terms(), node, map[node as usize])?;
    }
    Ok(Bytes::new(out))
}

// The text of the lean form of a graph: the map where the settings say so, and else the graph.
fn lean_text(alloc: Global, settings: Settings, graph: &Dataset) -> Result<Bytes, LeanStop>
    ensures text { IfOk result (IsLeaning settings.map settings.limit (dataset_of graph.now)) }
    ensures stop { IfErr result (IsLeanStop graph.now settings.limit) }
{
    let form = lean(alloc, graph, settings.limit)?;
    let text = if settings.map {
        map_text(alloc, graph, &form)?
    } else {
        graph_text(alloc, graph, &form)?
    };
    Ok(text)
}

// What is written of a graph, or how the run stops.
pub(crate) fn lean_output(
    alloc: Global,
    settings: Settings,
    graph: &Dataset,
) -> Result<Output, Status>
    ensures output { IfOk result (IsLeanOutput settings graph.now) }
    ensures stops { IfErr result (IsLeanEnd settings graph.now) }
{
    match lean_text(alloc, settings, graph) {
        Ok(text) => Ok(Output {
            text,
            unsettled: None,
        }),
        Err(stop) => Err(status_of_lean(stop, settings.limit)),
    }
}
