//! The canonical line of a quad.

ghost use Rattle.std.specs.Prelude.{◌≡◌, ◌<◌, ◌≤◌, ◌++◌, length, take, OnOk, OnErr, IsErr, IfSome, codes};
ghost use Rattle.std.specs.Io.{StartsWith};
ghost use Rattle.std.specs.List.{flat_map};
ghost use Rattle.std.specs.Str.{bytes_eq};
ghost use Rattle.rdf_terms.specs.CanonicalForm.{canonical_line, canonical_term, canonical_graph_name, canonical_suffix, escaped, xsd_string};
ghost use Rattle.rdf_terms.specs.Document.{statement, term_at, graph_name_at, IsInRange};
ghost use Rattle.canonical_writer.specs.Names.{naming_of, HasNames, IsNamed};
ghost use Rattle.canonical_writer.specs.Runs.{line_start, line_rest};

use crate::escape::push_escaped;
use crate::named_terms::NamedTerms;
use crate::names::Names;
use rdf_terms::{Literal, LiteralKind, NoMemory, Quad, Term, TermTable, TermText, xsd};

/// Appends the canonical line of a quad. After an `Err` the bytes are as before.
pub fn push_line<N: Names>(
    out: &mut Vec<u8>,
    terms: &TermTable,
    quad: Quad,
    names: &N,
) -> Result<(), NoMemory>
    requires in_range { IsInRange terms.now quad }
    requires named { HasNames (N.name names.now) (statement terms.now quad) }
    ensures ok { OnOk result (out.new.items ≡ out.old.items ++ canonical_line (naming_of (N.name names.now)) (statement terms.now quad)) }
    ensures err { OnErr result (out.new.items ≡ out.old.items) }
{
    let before = out.len();
    let written = append_line(out, &NamedTerms { terms, names }, quad);
    if written.is_err() {
        return cut_off(out, before);
    }
    Ok(())
}

// Cuts off what was written from this place on, since there was no memory for all of it.
pub(crate) fn cut_off(text: &mut Vec<u8>, before: usize) -> Result<(), NoMemory>
    requires { before ≤ length text.old.items }
    ensures err { IsErr result }
    ensures cut { text.new.items ≡ take before text.old.items }
{
    text.truncate(before);
    Err(NoMemory)
}

// The same as `push_line`, but after an `Err` a part of the line may stand there.
pub(crate) fn append_line<N: Names>(
    out: &mut Vec<u8>,
    named: &NamedTerms<'_, N>,
    quad: Quad,
) -> Result<(), NoMemory>
    requires in_range { IsInRange named.now.terms.now quad }
    requires named { HasNames (N.name named.now.names.now) (statement named.now.terms.now quad) }
    ensures ok { OnOk result (out.new.items ≡ out.old.items ++ canonical_line (naming_of (N.name named.now.names.now)) (statement named.now.terms.now quad)) }
    ensures front { StartsWith out.new.items out.old.items }
{
    push_place(out, named, quad.s)?;
    push_rest(out, named, quad)
}

// The same where the start of the line is at hand: it is copied and not written again.
pub(crate) fn append_behind<N: Names>(
    out: &mut Vec<u8>,
    start: &[u8],
    named: &NamedTerms<'_, N>,
    quad: Quad,
) -> Result<(), NoMemory>
    requires start { start.now ≡ line_start (naming_of (N.name named.now.names.now)) (term_at named.now.terms.now quad.s) }
    requires in_range { IsInRange named.now.terms.now quad }
    requires named { HasNames (N.name named.now.names.now) (statement named.now.terms.now quad) }
    ensures ok { OnOk result (out.new.items ≡ out.old.items ++ canonical_line (naming_of (N.name named.now.names.now)) (statement named.now.terms.now quad)) }
    ensures front { StartsWith out.new.items out.old.items }
{
    out.extend_from_slice(start)?;
    push_rest(out, named, quad)
}

// Appends what stands behind the subject in the line of a quad.
fn push_rest<N: Names>(
    out: &mut Vec<u8>,
    named: &NamedTerms<'_, N>,
    quad: Quad,
) -> Result<(), NoMemory>
    requires in_range { IsInRange named.now.terms.now quad }
    requires named { HasNames (N.name named.now.names.now) (statement named.now.terms.now quad) }
    ensures ok { OnOk result (out.new.items ≡ out.old.items ++ line_rest (naming_of (N.name named.now.names.now)) (statement named.now.terms.now quad)) }
    ensures front { StartsWith out.new.items out.old.items }
{
    push_place(out, named, quad.p)?;
    push_place(out, named, quad.o)?;
    push_graph_name(out, named, quad.g)?;
    out.extend_from_slice(b".\n")?;
    Ok(())
}

fn push_graph_name<N: Names>(
    out: &mut Vec<u8>,
    named: &NamedTerms<'_, N>,
    number: Option<u32>,
) -> Result<(), NoMemory>
    requires in_range { IfSome number (λ g. g < length named.now.terms.now) }
    requires named { IfSome (graph_name_at named.now.terms.now number) (IsNamed (N.name named.now.names.now)) }
    ensures ok { OnOk result (out.new.items ≡ out.old.items ++ canonical_graph_name (naming_of (N.name named.now.names.now)) (graph_name_at named.now.terms.now number)) }
    ensures front { StartsWith out.new.items out.old.items }
{
    match number {
        Some(graph_name) => push_place(out, named, graph_name),
        None => Ok(()),
    }
}

// Appends the term with this number, and a space: as the subject, it is the start of a line.
#[inline]
pub(crate) fn push_place<N: Names>(
    out: &mut Vec<u8>,
    named: &NamedTerms<'_, N>,
    number: u32,
) -> Result<(), NoMemory>
    requires in_range { number < length named.now.terms.now }
    requires named { IsNamed (N.name named.now.names.now) (term_at named.now.terms.now number) }
    ensures ok { OnOk result (out.new.items ≡ out.old.items ++ (canonical_term (naming_of (N.name named.now.names.now)) (term_at named.now.terms.now number) ++ codes " ")) }
    ensures front { StartsWith out.new.items out.old.items }
{
    let Some(term) = named.terms.get(number) else {
        unreachable!()
    };
    push_term(out, term, named.names)?;
    out.push(b' ')?;
    Ok(())
}

/// Appends the term as it stands in a canonical line. After an `Err` the bytes begin with what they
/// were.
#[inline]
pub fn push_term<N: Names>(out: &mut Vec<u8>, term: &Term, names: &N) -> Result<(), NoMemory>
    requires { IsNamed (N.name names.now) term.now }
    ensures ok { OnOk result (out.new.items ≡ out.old.items ++ canonical_term (naming_of (N.name names.now)) term.now) }
    ensures front { StartsWith out.new.items out.old.items }
{
    match term {
        Term::Iri(iri) => push_iri(out, iri),
        Term::Blank(node) => names.push_name(*node, out),
        Term::Literal(literal) => push_literal(out, literal),
    }
}

#[inline]
fn push_iri(out: &mut Vec<u8>, iri: &TermText) -> Result<(), NoMemory>
    ensures ok { OnOk result (out.new.items ≡ out.old.items ++ (codes "<" ++ (iri.now ++ codes ">"))) }
    ensures front { StartsWith out.new.items out.old.items }
{
    out.push(b'<')?;
    out.extend_from_slice(iri.as_str().as_bytes())?;
    out.push(b'>')?;
    Ok(())
}

fn push_literal(out: &mut Vec<u8>, literal: &Literal) -> Result<(), NoMemory>
    ensures ok { OnOk result (out.new.items ≡ out.old.items ++ (codes "\"" ++ (flat_map escaped literal.now.lexical ++ (codes "\"" ++ canonical_suffix literal.now.kind)))) }
    ensures front { StartsWith out.new.items out.old.items }
{
    out.push(b'"')?;
    push_escaped(out, literal.lexical.as_str().as_bytes())?;
    out.push(b'"')?;
    push_suffix(out, &literal.kind)
}

// Appends what stands behind the string: its language tag, or its datatype if it is written.
fn push_suffix(out: &mut Vec<u8>, kind: &LiteralKind) -> Result<(), NoMemory>
    ensures ok { OnOk result (out.new.items ≡ out.old.items ++ canonical_suffix kind.now) }
    ensures front { StartsWith out.new.items out.old.items }
{
    match kind {
        LiteralKind::Typed(iri) => {
            if !is_string_type(iri) {
                out.extend_from_slice(b"^^")?;
                push_iri(out, iri)?;
            }
        }
        LiteralKind::Tagged(tag) => {
            out.push(b'@')?;
            out.extend_from_slice(tag.as_str().as_bytes())?;
        }
    }
    Ok(())
}

#[inline]
pub(crate) fn is_string_type(iri: &TermText) -> bool
    ensures { result ≡ bytes_eq iri.now xsd_string }
{
    iri.as_str() == xsd::STRING
}
