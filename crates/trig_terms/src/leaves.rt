//! What a token stands for by itself, kind by kind.
ghost use Rattle.std.specs.Prelude.{◌≡◌, ◌≢◌, IfOk};
ghost use Rattle.rdf_terms.specs.Terms.{IsAbsoluteIri};
ghost use Rattle.trig_lexer.specs.declared.kind.Kind.TheVariants.{IriRef, BlankLabel, LangTag, End};
ghost use Rattle.trig_terms.specs.Leaves.{IsSpelled, IsLeafOf, IsValidLeaf};

use crate::Leaf;
use crate::names::{name, namespace};
use crate::strings::string;
use rdf_terms::{NoMemory, xsd};
use std::alloc::Global;
use terminals::{Grammar, SpelledText, blank_node_label, iriref, langtag};
use trig_lexer::Kind;

// The IRIREF that the text is.
fn iri(alloc: Global, text: &str) -> Result<Leaf<'_>, NoMemory>
    requires { IsSpelled IriRef text.now }
    ensures is { IfOk result (IsLeafOf IriRef text.now) }
    ensures valid { IfOk result IsValidLeaf }
{
    match iriref(text) {
        Some((spelling, _)) => Ok(Leaf::Iri(spelling.value(alloc)?)),
        None => unreachable!(),
    }
}

// The BLANK_NODE_LABEL that the text is.
fn label(text: &str) -> Leaf<'_>
    requires { IsSpelled BlankLabel text.now }
    ensures { IsLeafOf BlankLabel text.now result }
{
    match blank_node_label(text, Grammar::TriG) {
        Some((label, _)) => Leaf::Label(SpelledText::of_text(label)),
        None => unreachable!(),
    }
}

// The LANGTAG that the text is.
fn tag(text: &str) -> Leaf<'_>
    requires { IsSpelled LangTag text.now }
    ensures is { IsLeafOf LangTag text.now result }
    ensures valid { IsValidLeaf result }
{
    match langtag(text) {
        Some((tag, _)) => Leaf::Tag(SpelledText::of_text(tag)),
        None => unreachable!(),
    }
}

// A number or a truth value: its characters are the lexical form (RDF 1.1 TriG, section 5.2).
fn typed<'a>(text: &'a str, datatype: &'static str) -> Leaf<'a>
    requires { IsAbsoluteIri datatype.now }
    ensures is { result ≡ Leaf.Typed text.now datatype.now }
    ensures valid { IsValidLeaf result }
{
    Leaf::Typed(SpelledText::of_text(text), SpelledText::of_text(datatype))
}

/// What a token of this kind stands for that the text spells. The end of the text is spelled by
/// nothing.
pub fn leaf_of(alloc: Global, kind: Kind, text: &str) -> Result<Leaf<'_>, NoMemory>
    requires { kind ≢ End → IsSpelled kind text.now }
    ensures is { IfOk result (IsLeafOf kind text.now) }
    ensures valid { IfOk result IsValidLeaf }
{
    match kind {
        Kind::IriRef => iri(alloc, text),
        Kind::PnameNs => Ok(namespace(text)),
        Kind::PnameLn => name(alloc, text),
        Kind::BlankLabel => Ok(label(text)),
        Kind::Anon => Ok(Leaf::Anonymous),
        Kind::Integer => Ok(typed(text, xsd::INTEGER)),
        Kind::Decimal => Ok(typed(text, xsd::DECIMAL)),
        Kind::Double => Ok(typed(text, xsd::DOUBLE)),
        Kind::WordTrue | Kind::WordFalse => Ok(typed(text, xsd::BOOLEAN)),
        Kind::Quoted => string(alloc, text),
        Kind::LangTag => Ok(tag(text)),
        kind => Ok(Leaf::Mark(kind)),
    }
}
