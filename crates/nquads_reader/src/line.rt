//! One line: what it states, or its fault.
ghost use Rattle.std.specs.Prelude.{◌≡◌, ◌↔◌, IfOk, IfErr, IfSome, IsTrue};
ghost use Rattle.rdf_terms.specs.Terms.{HasScheme};
ghost use Rattle.nquads_reader.specs.Grammar.{BeginsWithGraphName, BeginsWithTerms, EndsStatement, States};
ghost use Rattle.nquads_reader.specs.Document.{IsAbsoluteResource, IsAbsoluteObject, HasAbsoluteIris, IsFaultless};
ghost use Rattle.nquads_reader.specs.Reading.{Reads, IsFaultOf};

use crate::fault::LineFault;
use crate::quad::{Object, Resource, StatedQuad};
use crate::terms::{iri, object, resource};
use crate::white::{after_white, is_optional_comment};
use iri_resolve::has_scheme;
use rdf_terms::NoMemory;
use simdutf8::compat::from_utf8;
use std::alloc::Global;
use terminals::after;

// The graph name, where no dot stands in its place, and what follows it and white space.
#[inline(always)]
fn graph_name(alloc: Global, text: &str) -> Result<Option<(Option<Resource<'_>>, &str)>, NoMemory>
    ensures { IfOk result (Reads (λ x. (x.0, x.1.now)) (BeginsWithGraphName text.now)) }
{
    if after(text, '.').is_some() {
        return Ok(Some((None, text)));
    }
    match resource(alloc, text)? {
        Some((resource, rest)) => Ok(Some((Some(resource), after_white(rest)))),
        None => Ok(None),
    }
}

// The terms of a statement, and what follows them and white space.
#[inline(always)]
fn terms(alloc: Global, text: &str) -> Result<Option<(StatedQuad<'_>, &str)>, NoMemory>
    ensures { IfOk result (Reads (λ x. (x.0, x.1.now)) (BeginsWithTerms text.now)) }
{
    let Some((subject, rest)) = resource(alloc, text)? else {
        return Ok(None);
    };
    let Some((predicate, rest)) = iri(alloc, after_white(rest))? else {
        return Ok(None);
    };
    let Some((object, rest)) = object(alloc, after_white(rest))? else {
        return Ok(None);
    };
    let Some((graph_name, rest)) = graph_name(alloc, after_white(rest))? else {
        return Ok(None);
    };
    let quad = StatedQuad {
        subject,
        predicate,
        object,
        graph_name,
    };
    Ok(Some((quad, rest)))
}

// Whether a dot, and then nothing but white space and a comment stands there.
fn ends_statement(text: &str) -> bool
    ensures { IsTrue result ↔ EndsStatement text.now }
{
    match after(text, '.') {
        None => false,
        Some(rest) => is_optional_comment(after_white(rest)),
    }
}

// What the line states: no quad, or one.
#[inline(always)]
fn stated(alloc: Global, line: &str) -> Result<Option<StatedQuad<'_>>, LineFault>
    ensures ok { IfOk result (States line.now) }
    ensures err { IfErr result (IsFaultOf line.now) }
{
    let text = after_white(line);
    if is_optional_comment(text) {
        return Ok(None);
    }
    let Some((quad, rest)) = terms(alloc, text)? else {
        return Err(LineFault::BadLine);
    };
    if ends_statement(rest) {
        Ok(Some(quad))
    } else {
        Err(LineFault::BadLine)
    }
}

#[inline(always)]
fn is_absolute_resource(resource: &Resource<'_>) -> bool
    ensures { IsTrue result ↔ IsAbsoluteResource resource.now }
{
    match resource {
        Resource::Iri(iri) => has_scheme(iri.as_str()),
        Resource::Label(_) => true,
    }
}

#[inline(always)]
fn is_absolute_object(object: &Object<'_>) -> bool
    ensures { IsTrue result ↔ IsAbsoluteObject object.now }
{
    match object {
        Object::Resource(resource) => is_absolute_resource(resource),
        Object::Literal(literal) => literal.is_absolute(),
    }
}

// Whether each IRI of the quad has a scheme.
#[inline(always)]
fn has_absolute_iris(quad: &StatedQuad<'_>) -> bool
    ensures { IsTrue result ↔ HasAbsoluteIris quad.now }
{
    is_absolute_resource(&quad.subject)
        && has_scheme(quad.predicate.as_str())
        && is_absolute_object(&quad.object)
        && quad
            .graph_name
            .as_ref()
            .is_none_or(|graph_name| is_absolute_resource(graph_name))
}

// What the line states: no quad, or one.
pub(crate) fn read_line(alloc: Global, line: &[u8]) -> Result<Option<StatedQuad<'_>>, LineFault>
    ensures ok { IfOk result (IsFaultless line.now) }
    ensures err { IfErr result (IsFaultOf line.now) }
{
    let Ok(text) = from_utf8(line) else {
        return Err(LineFault::NotUtf8);
    };
    match stated(alloc, text)? {
        None => Ok(None),
        Some(quad) => {
            if has_absolute_iris(&quad) {
                Ok(Some(quad))
            } else {
                Err(LineFault::RelativeIri)
            }
        }
    }
}
