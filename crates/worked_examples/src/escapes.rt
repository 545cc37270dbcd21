//! Canonical lines (RDF Dataset Canonicalization, appendix A): the escapes of strings, what is
//! written behind them, and the order of lines.

use canonical_writer::{NumberNames, push_line, write_sorted};
use rdf_terms::{Bytes, Literal, LiteralKind, NoMemory, Quad, Term, TermTable, TermText};
use std::alloc::Global;
use std::hash::RandomState;
use std::process::Abort;
use std::test::Fail;

const STRING: &str = "http://www.w3.org/2001/XMLSchema#string";

fn number_of(terms: &mut TermTable, term: Term) -> Result<u32, NoMemory> {
    if terms.len() == u32::MAX {
        return Err(NoMemory);
    }
    terms.intern(term)
}

// The line of a quad with this object; nothing if a term has no number.
#[tactic(auto, using(canonical_writer::proofs::NamedNodes::has_numbered_names))]
fn line_of(alloc: Global, keys: RandomState, object: Literal) -> Result<Vec<u8>, NoMemory> {
    let mut terms = TermTable::new(alloc, keys);
    let s = number_of(&mut terms, Term::Iri(TermText::copy(alloc, "http://e/s")?))?;
    let p = number_of(&mut terms, Term::Iri(TermText::copy(alloc, "http://e/p")?))?;
    let o = number_of(&mut terms, Term::Literal(object))?;
    let mut line = Vec::new(alloc);
    let quad = Quad { s, p, o, g: None };
    if s < terms.len() && p < terms.len() && o < terms.len() {
        push_line(&mut line, &terms, quad, &NumberNames)?;
    }
    Ok(line)
}

fn typed(alloc: Global, lexical: &str, iri: &str) -> Result<Literal, NoMemory> {
    Ok(Literal {
        lexical: TermText::copy(alloc, lexical)?,
        kind: LiteralKind::Typed(TermText::copy(alloc, iri)?),
    })
}

// Tests ask the functions below, which assert where no table is at hand: an assertion beside one
// costs the prover minutes.
fn assert_line(rt: &impl Abort, line: &[u8], want: &[u8], shown: &str) {
    assert_eq!(rt; line, want, "at {shown:?}");
}

fn expect_line(
    rt: &impl Abort,
    alloc: Global,
    keys: RandomState,
    object: Literal,
    want: &str,
    shown: &str,
) -> Result<(), Fail> {
    let line = line_of(alloc, keys, object)?;
    assert_line(rt, &line, want.as_bytes(), shown);
    Ok(())
}

fn expect_escaped(
    rt: &impl Abort,
    alloc: Global,
    keys: RandomState,
    lexical: &str,
    written: &str,
) -> Result<(), Fail> {
    let want = format!(in alloc; "<http://e/s> <http://e/p> \"{written}\" .\n")?;
    expect_line(
        rt,
        alloc,
        keys,
        typed(alloc, lexical, STRING)?,
        &want,
        lexical,
    )
}

#[test]
fn a_string_is_written_with_its_escapes(rt: HostRuntime) -> Result<(), Fail> {
    let table = [
        ("\u{0}", "\\u0000"),
        ("\u{1}", "\\u0001"),
        ("\u{2}", "\\u0002"),
        ("\u{3}", "\\u0003"),
        ("\u{4}", "\\u0004"),
        ("\u{5}", "\\u0005"),
        ("\u{6}", "\\u0006"),
        ("\u{7}", "\\u0007"),
        ("\u{8}", "\\b"),
        ("\u{9}", "\\t"),
        ("\u{A}", "\\n"),
        ("\u{B}", "\\u000B"),
        ("\u{C}", "\\f"),
        ("\u{D}", "\\r"),
        ("\u{E}", "\\u000E"),
        ("\u{F}", "\\u000F"),
        ("\u{10}", "\\u0010"),
        ("\u{11}", "\\u0011"),
        ("\u{12}", "\\u0012"),
        ("\u{13}", "\\u0013"),
        ("\u{14}", "\\u0014"),
        ("\u{15}", "\\u0015"),
        ("\u{16}", "\\u0016"),
        ("\u{17}", "\\u0017"),
        ("\u{18}", "\\u0018"),
        ("\u{19}", "\\u0019"),
        ("\u{1A}", "\\u001A"),
        ("\u{1B}", "\\u001B"),
        ("\u{1C}", "\\u001C"),
        ("\u{1D}", "\\u001D"),
        ("\u{1E}", "\\u001E"),
        ("\u{1F}", "\\u001F"),
        ("\u{7F}", "\\u007F"),
        ("\"", "\\\""),
        ("\\", "\\\\"),
        ("\u{FFFE}", "\u{FFFE}"),
        ("\u{FFFF}", "\u{FFFF}"),
        ("\u{80}", "\u{80}"),
        ("'é 😀", "'é 😀"),
        ("one\ttwo\nthree", "one\\ttwo\\nthree"),
        ("", ""),
    ];
    let keys = RandomState::new(&rt)?;
    for (lexical, written) in table {
        expect_escaped(&rt, rt.alloc(), keys, lexical, written)?;
    }
    Ok(())
}

fn tagged(alloc: Global, lexical: &str, tag: &str) -> Result<Literal, NoMemory> {
    Ok(Literal {
        lexical: TermText::copy(alloc, lexical)?,
        kind: LiteralKind::Tagged(TermText::copy(alloc, tag)?),
    })
}

#[test]
fn a_datatype_and_a_tag_are_written_behind_the_string(rt: HostRuntime) -> Result<(), Fail> {
    let alloc = rt.alloc();
    let keys = RandomState::new(&rt)?;
    let typed = typed(alloc, "1", "http://e/t")?;
    let want = "<http://e/s> <http://e/p> \"1\"^^<http://e/t> .\n";
    expect_line(&rt, alloc, keys, typed, want, "1")?;
    let tagged = tagged(alloc, "ja", "de-CH")?;
    let want = "<http://e/s> <http://e/p> \"ja\"@de-CH .\n";
    expect_line(&rt, alloc, keys, tagged, want, "ja")
}

// The text of two quads, of which the second comes first; nothing if a term has no number.
#[tactic(auto, using(canonical_writer::proofs::NamedNodes::has_numbered_names))]
fn text_of_two(alloc: Global, keys: RandomState) -> Result<Bytes, NoMemory> {
    let mut terms = TermTable::new(alloc, keys);
    let b = number_of(&mut terms, Term::Iri(TermText::copy(alloc, "e:b")?))?;
    let a = number_of(&mut terms, Term::Iri(TermText::copy(alloc, "e:a")?))?;
    let first = Quad {
        s: b,
        p: b,
        o: a,
        g: None,
    };
    let second = Quad {
        s: a,
        p: b,
        o: b,
        g: None,
    };
    if a < terms.len() && b < terms.len() {
        write_sorted(alloc, &terms, &[first, second], &NumberNames)
    } else {
        Ok(Bytes::new(Vec::new(alloc)))
    }
}

fn is_text_of_two(alloc: Global, keys: RandomState, want: &str) -> Result<bool, NoMemory> {
    let text = text_of_two(alloc, keys)?;
    Ok(text.as_slice() == want.as_bytes())
}

#[test]
fn lines_are_written_in_byte_order(rt: HostRuntime) -> Result<(), Fail> {
    let want = "<e:a> <e:b> <e:b> .\n<e:b> <e:b> <e:a> .\n";
    assert!(rt; is_text_of_two(rt.alloc(), RandomState::new(&rt)?, want)?);
    Ok(())
}
