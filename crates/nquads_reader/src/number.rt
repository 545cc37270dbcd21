//! Quads as lines state them go into the draft, with numbers for their labels.
ghost use Rattle.std.specs.Prelude.{◌≡◌, ◌<◌, ◌≤◌, ◌+◌, ◌*◌, length, map, All, IfOk, OnOk};
ghost use Rattle.std.specs.List.{flat_map, AllZip};
ghost use Rattle.rdf_terms.specs.Document.{statements, AddsAll};
ghost use Rattle.rdf_terms.specs.References.{term_of, graph_name_of, statement_of};
ghost use Rattle.nquads_reader.specs.Document.{labels_of_resource, labels_of_object, labels_of_graph_name, mentioned, IsResourceTerm, IsObjectTerm, IsGraphNameTerm, IsStatementOf};
ghost use Rattle.nquads_reader.specs.Reading.{IsValidQuad, TakesQuads};

use crate::quad::{Object, Resource, StatedQuad};
use rdf_terms::{Draft, LabelRef, MOST_NUMBERS, MOST_QUADS, NoMemory, StatementRef, TermRef};
use std::alloc::Global;

#[inline(always)]
fn resource_term<'a>(draft: &mut Draft, resource: &'a Resource<'_>) -> Result<TermRef<'a>, NoMemory>
    requires { length draft.old.labels < MOST_NUMBERS }
    ensures term { IfOk result (λ t. IsResourceTerm draft.new.labels resource.now (term_of t)) }
    ensures labels { OnOk result (AddsAll draft.old.labels (labels_of_resource resource.now) draft.new.labels) }
    ensures grows { OnOk result (length draft.new.labels ≤ length draft.old.labels + 1) }
    ensures statements { statements draft.new ≡ statements draft.old }
{
    match resource {
        Resource::Iri(iri) => Ok(TermRef::Iri(iri.as_str())),
        Resource::Label(label) => {
            let node = draft.node_ref(LabelRef::Named(label.as_str()))?;
            Ok(TermRef::Blank(node))
        }
    }
}

#[inline(always)]
fn object_term<'a>(draft: &mut Draft, object: &'a Object<'_>) -> Result<TermRef<'a>, NoMemory>
    requires { length draft.old.labels < MOST_NUMBERS }
    ensures term { IfOk result (λ t. IsObjectTerm draft.new.labels object.now (term_of t)) }
    ensures labels { OnOk result (AddsAll draft.old.labels (labels_of_object object.now) draft.new.labels) }
    ensures grows { OnOk result (length draft.new.labels ≤ length draft.old.labels + 1) }
    ensures statements { statements draft.new ≡ statements draft.old }
{
    match object {
        Object::Resource(resource) => resource_term(draft, resource),
        Object::Literal(literal) => Ok(TermRef::Literal(literal.as_ref())),
    }
}

#[inline(always)]
fn graph_name_term<'a>(
    draft: &mut Draft,
    graph_name: &'a Option<Resource<'_>>,
) -> Result<Option<TermRef<'a>>, NoMemory>
    requires { length draft.old.labels < MOST_NUMBERS }
    ensures term { IfOk result (λ g. IsGraphNameTerm draft.new.labels graph_name.now (graph_name_of g)) }
    ensures labels { OnOk result (AddsAll draft.old.labels (labels_of_graph_name graph_name.now) draft.new.labels) }
    ensures grows { OnOk result (length draft.new.labels ≤ length draft.old.labels + 1) }
    ensures statements { statements draft.new ≡ statements draft.old }
{
    match graph_name {
        None => Ok(None),
        Some(resource) => Ok(Some(resource_term(draft, resource)?)),
    }
}

// What the quad states, with a number for each label that is new.
#[inline(always)]
fn statement_ref<'a>(
    draft: &mut Draft,
    quad: &'a StatedQuad<'_>,
) -> Result<StatementRef<'a>, NoMemory>
    requires { length draft.old.labels + 3 ≤ MOST_NUMBERS }
    ensures numbers { IfOk result (λ statement. IsStatementOf draft.new.labels quad.now (statement_of statement)) }
    ensures labels { OnOk result (AddsAll draft.old.labels (mentioned quad.now) draft.new.labels) }
    ensures statements { statements draft.new ≡ statements draft.old }
{
    let subject = resource_term(draft, &quad.subject)?;
    let object = object_term(draft, &quad.object)?;
    let graph_name = graph_name_term(draft, &quad.graph_name)?;
    Ok(StatementRef {
        subject,
        predicate: TermRef::Iri(quad.predicate.as_str()),
        object,
        graph_name,
    })
}

// What the quads state, one by one, with a number for each label that is new.
fn statement_refs<'a>(
    alloc: Global,
    draft: &mut Draft,
    quads: &'a [StatedQuad<'_>],
) -> Result<Vec<StatementRef<'a>>, NoMemory>
    requires { length draft.old.labels + 3 * length quads.now ≤ MOST_NUMBERS }
    ensures numbers { IfOk result (λ refs. AllZip (IsStatementOf draft.new.labels) quads.now (map statement_of refs.items)) }
    ensures labels { OnOk result (AddsAll draft.old.labels (flat_map mentioned quads.now) draft.new.labels) }
    ensures statements { statements draft.new ≡ statements draft.old }
{
    let mut refs = Vec::with_capacity(alloc, quads.len())?;
    for quad in quads {
        refs.push(statement_ref(draft, quad)?)?;
    }
    Ok(refs)
}

// Adds the quads in their order, with a number for each label that is new.
pub(crate) fn take_quads(
    alloc: Global,
    draft: &mut Draft,
    quads: &[StatedQuad<'_>],
) -> Result<(), NoMemory>
    requires valid { All IsValidQuad quads.now }
    requires room { length (statements draft.old) + length quads.now ≤ MOST_QUADS }
    requires labels { length draft.old.labels + 3 * length quads.now ≤ MOST_NUMBERS }
    ensures { OnOk result (TakesQuads quads.now draft.old draft.new) }
{
    let refs = statement_refs(alloc, draft, quads)?;
    draft.add_all(&refs)
}
