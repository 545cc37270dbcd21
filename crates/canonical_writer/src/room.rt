//! Room for the lines of some runs at once.

ghost use Rattle.std.specs.Prelude.{◌≡◌, ◌≤◌, length};

use crate::line::is_string_type;
use crate::runs::Run;
use rdf_terms::{Literal, LiteralKind, NoMemory, Quad, Term, TermTable};

// How many runs room is made for at once.
const RUNS_AT_ONCE: usize = 16;

// What is counted for all of a line but its subject, its predicate and the text of its object. What is
// written may be longer, or shorter: the text grows by itself where it has to.
const REST_LEN: usize = 64;

// At each place that is a multiple of `RUNS_AT_ONCE`, makes room in the text for the lines of so
// many runs from there on.
//
// To add up how long these lines will be, the keys, quads and objects are looked at. Those of two runs
// lie far apart in memory, and seldom in the processor's cache. Here no look waits for the one before
// it, so that many are fetched at a time, and when the lines are written they are at hand.
pub(crate) fn make_room(
    text: &mut Vec<u8>,
    terms: &TermTable,
    runs: &[Run<'_>],
    place: usize,
) -> Result<(), NoMemory>
    requires { place ≤ length runs.now }
    ensures { text.new.items ≡ text.old.items }
{
    if place % RUNS_AT_ONCE == 0 {
        text.reserve(runs_len(terms, &runs[place..]))?;
    }
    Ok(())
}

// About how long the lines of the first runs will be.
fn runs_len(terms: &TermTable, runs: &[Run<'_>]) -> usize {
    let runs = &runs[..runs.len().min(RUNS_AT_ONCE)];
    starts_len(terms, runs).wrapping_add(objects_len(terms, runs))
}

// How long the lines are but for their objects. By these looks the quads are fetched.
fn starts_len(terms: &TermTable, runs: &[Run<'_>]) -> usize {
    let mut len = 0usize;
    for run in runs {
        let start_len = key_len(run.key)
            .wrapping_add(predicate_len(terms, run.quads))
            .wrapping_add(REST_LEN);
        len = len.wrapping_add(run.quads.len().wrapping_mul(start_len));
    }
    len
}

// A key begins with an IRI or a label, and by a look at its first byte it is fetched.
#[inline]
fn key_len(key: &[u8]) -> usize {
    match key.first() {
        Some(b'<' | b'_') => key.len(),
        _ => 0,
    }
}

// How long the text of the first predicate is.
#[inline]
fn predicate_len(terms: &TermTable, quads: &[Quad]) -> usize {
    match quads.first() {
        Some(quad) => text_len(terms, quad.p),
        None => 0,
    }
}

fn objects_len(terms: &TermTable, runs: &[Run<'_>]) -> usize {
    let mut len = 0usize;
    for run in runs {
        len = len.wrapping_add(texts_len(terms, run.quads));
    }
    len
}

// How long the texts of the objects are.
#[inline]
fn texts_len(terms: &TermTable, quads: &[Quad]) -> usize {
    let mut len = 0usize;
    for quad in quads {
        len = len.wrapping_add(text_len(terms, quad.o));
    }
    len
}

// How long the text of the term with this number is. A node has none.
#[inline]
fn text_len(terms: &TermTable, number: u32) -> usize {
    match terms.get(number) {
        Some(Term::Iri(iri)) => iri.as_str().len(),
        Some(Term::Literal(literal)) => literal_len(literal),
        Some(Term::Blank(_)) | None => 0,
    }
}

#[inline]
fn literal_len(literal: &Literal) -> usize {
    let suffix_len = match &literal.kind {
        LiteralKind::Typed(iri) if is_string_type(iri) => 0,
        LiteralKind::Typed(iri) => iri.as_str().len(),
        LiteralKind::Tagged(tag) => tag.as_str().len(),
    };
    literal.lexical.as_str().len().wrapping_add(suffix_len)
}
