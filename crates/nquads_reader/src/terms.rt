//! The terms of a line.
ghost use Rattle.std.specs.Prelude.{◌≡◌, ◌↔◌, IfOk, IsTrue};
ghost use Rattle.rdf_terms.specs.CanonicalForm.{xsd_string};
ghost use Rattle.nquads_reader.specs.Grammar.{BeginsWithIri, BeginsWithString, BeginsWithResource, BeginsWithDatatype, BeginsWithTag, BeginsWithNoSuffix, BeginsWithSuffix, BeginsWithLiteral, BeginsWithObject};
ghost use Rattle.nquads_reader.specs.Reading.{Reads};
ghost use Rattle.nquads_reader.specs.Suffixes.{suffix_kind};

use crate::quad::{Object, Resource};
use crate::stated_literal::{StatedLiteral, Suffix};
use crate::white::after_white;
use rdf_terms::{NoMemory, xsd};
use std::alloc::Global;
use terminals::{
    Grammar, Quote, SpelledText, after, blank_node_label, iriref, langtag, short_string,
};

// Each function below answers what stands at the front of the text, and what follows it.

#[inline(always)]
pub(crate) fn iri(alloc: Global, text: &str) -> Result<Option<(SpelledText<'_>, &str)>, NoMemory>
    ensures { IfOk result (Reads (λ x. (x.0, x.1.now)) (BeginsWithIri text.now)) }
{
    let Some((spelling, rest)) = iriref(text) else {
        return Ok(None);
    };
    Ok(Some((spelling.value(alloc)?, rest)))
}

#[inline(always)]
fn string(alloc: Global, text: &str) -> Result<Option<(SpelledText<'_>, &str)>, NoMemory>
    ensures { IfOk result (Reads (λ x. (x.0, x.1.now)) (BeginsWithString text.now)) }
{
    let Some((spelling, rest)) = short_string(text, Quote::Double) else {
        return Ok(None);
    };
    Ok(Some((spelling.value(alloc)?, rest)))
}

#[inline(always)]
pub(crate) fn resource(alloc: Global, text: &str) -> Result<Option<(Resource<'_>, &str)>, NoMemory>
    ensures { IfOk result (Reads (λ x. (x.0, x.1.now)) (BeginsWithResource text.now)) }
{
    if let Some((iri, rest)) = iri(alloc, text)? {
        return Ok(Some((Resource::Iri(iri), rest)));
    }
    let Some((label, rest)) = blank_node_label(text, Grammar::NQuads) else {
        return Ok(None);
    };
    Ok(Some((Resource::Label(SpelledText::of_text(label)), rest)))
}

fn datatype(alloc: Global, text: &str) -> Result<Option<(SpelledText<'_>, &str)>, NoMemory>
    ensures { IfOk result (Reads (λ x. (x.0, x.1.now)) (BeginsWithDatatype text.now)) }
{
    let Some(rest) = after(text, '^') else {
        return Ok(None);
    };
    let Some(rest) = after(rest, '^') else {
        return Ok(None);
    };
    iri(alloc, after_white(rest))
}

fn tag(text: &str) -> Option<(SpelledText<'_>, &str)>
    ensures { Reads (λ x. (x.0, x.1.now)) (BeginsWithTag text.now) result }
{
    match langtag(text) {
        Some((tag, rest)) => Some((SpelledText::of_text(tag), rest)),
        None => None,
    }
}

// Whether no suffix of a string begins there.
fn has_no_suffix(text: &str) -> bool
    ensures { IsTrue result ↔ BeginsWithNoSuffix text.now }
{
    match text.as_bytes().first() {
        None => true,
        Some(first) => *first != b'^' && *first != b'@',
    }
}

fn suffix(alloc: Global, text: &str) -> Result<Option<(Suffix<'_>, &str)>, NoMemory>
    ensures { IfOk result (Reads (λ x. (suffix_kind x.0, x.1.now)) (BeginsWithSuffix text.now)) }
{
    if has_no_suffix(text) {
        // RDF 1.1 Concepts, section 3.3
        let datatype = SpelledText::of_text(xsd::STRING);
        return Ok(Some((Suffix::Datatype(datatype), text)));
    }
    if let Some((tag, rest)) = tag(text) {
        return Ok(Some((Suffix::Tag(tag), rest)));
    }
    match datatype(alloc, text)? {
        Some((datatype, rest)) => Ok(Some((Suffix::Datatype(datatype), rest))),
        None => Ok(None),
    }
}

#[inline(always)]
fn literal(alloc: Global, text: &str) -> Result<Option<(StatedLiteral<'_>, &str)>, NoMemory>
    ensures { IfOk result (Reads (λ x. (x.0, x.1.now)) (BeginsWithLiteral text.now)) }
{
    let Some((lexical, rest)) = string(alloc, text)? else {
        return Ok(None);
    };
    let Some((suffix, rest)) = suffix(alloc, after_white(rest))? else {
        return Ok(None);
    };
    Ok(Some((StatedLiteral::new(lexical, suffix), rest)))
}

#[inline(always)]
pub(crate) fn object(alloc: Global, text: &str) -> Result<Option<(Object<'_>, &str)>, NoMemory>
    ensures { IfOk result (Reads (λ x. (x.0, x.1.now)) (BeginsWithObject text.now)) }
{
    if let Some((resource, rest)) = resource(alloc, text)? {
        return Ok(Some((Object::Resource(resource), rest)));
    }
    match literal(alloc, text)? {
        Some((literal, rest)) => Ok(Some((Object::Literal(literal), rest))),
        None => Ok(None),
    }
}
