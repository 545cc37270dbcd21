//! What is N-Quads and what is not: escapes, labels, tags, line ends, comments and the order of refusals.

use nquads_reader::{ReadFault, read_nquads};
use rdf_terms::{Label, LiteralKind, Parsed, Term};
use std::alloc::Global;
use std::hash::RandomState;
use std::process::Abort;
use std::test::Fail;

// Tests ask the functions below and hold no document themselves: an assertion where one is at hand
// costs the prover minutes.
fn read(alloc: Global, keys: RandomState, bytes: &[u8]) -> Result<Result<Parsed, ReadFault>, Fail> {
    if bytes.len() > 1000 {
        return Err(Fail::from("a text is too long for this table"));
    }
    Ok(read_nquads(alloc, keys, bytes))
}

// Why the bytes are not read, if they are not.
fn fault_of(alloc: Global, keys: RandomState, bytes: &[u8]) -> Result<Option<ReadFault>, Fail> {
    match read(alloc, keys, bytes)? {
        Ok(_) => Ok(None),
        Err(fault) => Ok(Some(fault)),
    }
}

fn expect(
    rt: &impl Abort,
    alloc: Global,
    keys: RandomState,
    bytes: &[u8],
    wanted: Option<ReadFault>,
    shown: &str,
) -> Result<(), Fail> {
    assert_eq!(rt; fault_of(alloc, keys, bytes)?, wanted, "{shown:?}");
    Ok(())
}

fn expect_each(
    rt: &impl Abort,
    alloc: Global,
    keys: RandomState,
    table: &[(&str, Option<ReadFault>)],
) -> Result<(), Fail> {
    for (text, wanted) in table {
        expect(rt, alloc, keys, text.as_bytes(), *wanted, text)?;
    }
    Ok(())
}

fn bad(line: u64) -> Option<ReadFault> {
    Some(ReadFault::BadLine { line })
}

fn relative(line: u64) -> Option<ReadFault> {
    Some(ReadFault::RelativeIri { line })
}

fn not_utf8(line: u64) -> Option<ReadFault> {
    Some(ReadFault::NotUtf8 { line })
}

#[test]
fn lines_in_and_outside_the_grammar(rt: HostRuntime) -> Result<(), Fail> {
    let keys = RandomState::new(&rt)?;
    let table = [
        ("", None),
        ("# head\r\n<e:s>\t<e:p><e:o>.# c", None),
        (" \t\n\n#\n", None),
        ("<e:s> <e:p> <e:o>", bad(1)),
        ("<e:s> <e:p> .", bad(1)),
        ("<e:s> <e:p> <e:o> <e:g> .", None),
        ("<e:s> <e:p> <e:o> <e:g> <e:h> .", bad(1)),
        ("<e:s> _:p <e:o> .", bad(1)),
        ("\"s\" <e:p> <e:o> .", bad(1)),
        ("<e:s> <e:p> <e:o> \"g\" .", bad(1)),
        ("<e:s> <e:p> <e:o> . .", bad(1)),
        ("<e:s> <e:p> <e:o> . # c", None),
        ("\u{feff}<e:s> <e:p> <e:o> .", bad(1)),
        ("# \0\n<e:s> <e:p> <e:o> .", None),
    ];
    expect_each(&rt, rt.alloc(), keys, &table)
}

#[test]
fn escapes_name_characters(rt: HostRuntime) -> Result<(), Fail> {
    let keys = RandomState::new(&rt)?;
    let table = [
        ("<e:\\u0020> <e:p> <e:o> .", bad(1)),
        ("<e:s> <e:p> <x:\\u00E9> .", None),
        ("<\\u0065:s> <e:p> <e:o> .", None),
        ("<e:\\t> <e:p> <e:o> .", bad(1)),
        ("<e:s> <e:p> \"\\uD800\" .", bad(1)),
        ("<e:s> <e:p> \"\\U00110000\" .", bad(1)),
        ("<e:s> <e:p> \"\\U0010FFFF\" .", None),
        ("<e:s> <e:p> \"\\u00e\" .", bad(1)),
        ("<e:s> <e:p> \"\\a\" .", bad(1)),
        ("<e:s> <e:p> \"\\t\\b\\n\\r\\f\\\"\\'\\\\\" .", None),
        ("<e:s> <e:p> \"a\nb\" .", bad(1)),
    ];
    expect_each(&rt, rt.alloc(), keys, &table)
}

#[test]
fn labels_tags_and_suffixes(rt: HostRuntime) -> Result<(), Fail> {
    let keys = RandomState::new(&rt)?;
    let table = [
        ("_:a:b <e:p> _:a.", None),
        ("_:a:b <e:p> _:a. .", bad(1)),
        ("_:a_:b <e:p> <e:o> .", None),
        ("_:a.b <e:p> <e:o> .", None),
        ("_:-a <e:p> <e:o> .", bad(1)),
        ("_:0 <e:p> <e:o> .", None),
        ("<e:s> <e:p> \"x\"@en-GB .", None),
        ("<e:s> <e:p> \"x\"@en- .", bad(1)),
        ("<e:s> <e:p> \"x\"@1 .", bad(1)),
        ("<e:s> <e:p> \"x\" @en .", None),
        ("<e:s> <e:p> \"x\" ^^ <e:t> .", None),
        ("<e:s> <e:p> \"x\"^ ^<e:t> .", bad(1)),
        ("<e:s> <e:p> \"x\"^^_:t .", bad(1)),
        ("<e:s> <e:p> \"x\"^^<t> .", relative(1)),
    ];
    expect_each(&rt, rt.alloc(), keys, &table)
}

#[test]
fn the_first_faulty_line_is_named(rt: HostRuntime) -> Result<(), Fail> {
    let keys = RandomState::new(&rt)?;
    let table = [
        ("<e:s> <e:p> <e:o> .", None),
        (
            "<e:s> <e:p> <e:o> .\n<a> <e:p> <e:o> .\n<e:s> <e:p> <e:o>",
            relative(2),
        ),
        (
            "<e:s> <e:p> <e:o> .\n<e:a> <e:p> <e:o> .\n<e:s> <e:p> <e:o>",
            bad(3),
        ),
        ("<a> <e:p> <e:o>\n", bad(1)),
        ("x\r<a> <e:p> <e:o> .", bad(1)),
        ("#\r<a> <e:p> <e:o> .", relative(2)),
        ("#\r\n<a> <e:p> <e:o> .", relative(2)),
        ("#\n\r<a> <e:p> <e:o> .", relative(3)),
        ("<e:s> <e:p> <e:o> .\r", None),
    ];
    let bytes: [(&[u8], Option<ReadFault>, &str); 2] = [
        (b"#\n# \xff\nx", not_utf8(2), "a comment that is not UTF-8"),
        (b"x\n# \xff\n", bad(1), "one behind a faulty line"),
    ];
    for (bytes, wanted, shown) in bytes {
        expect(&rt, rt.alloc(), keys, bytes, wanted, shown)?;
    }
    expect_each(&rt, rt.alloc(), keys, &table)
}

// The lexical form of the object of the first quad, and whether it has a language tag.
fn first_literal(parsed: &Parsed) -> Option<(&str, bool)> {
    let quad = parsed.quads().first()?;
    match parsed.terms().get(quad.o)? {
        Term::Literal(literal) => {
            let tagged = match &literal.kind {
                LiteralKind::Tagged(_) => true,
                LiteralKind::Typed(_) => false,
            };
            Some((literal.lexical.as_str(), tagged))
        }
        _ => None,
    }
}

// Whether the bytes are read, and the first object is this literal.
fn has_literal(
    alloc: Global,
    keys: RandomState,
    bytes: &[u8],
    literal: (&str, bool),
) -> Result<bool, Fail> {
    match read(alloc, keys, bytes)? {
        Ok(parsed) => match first_literal(&parsed) {
            Some((lexical, tagged)) => Ok(lexical == literal.0 && tagged == literal.1),
            None => Ok(false),
        },
        Err(_) => Ok(false),
    }
}

#[test]
fn strings_are_read_by_their_characters(rt: HostRuntime) -> Result<(), Fail> {
    let keys = RandomState::new(&rt)?;
    let table = [
        (
            "<e:s> <e:p> \"a\\tb\\u0041\\u007f\\u000B\\\"\" .\n",
            ("a\tbA\u{7f}\u{b}\"", false),
        ),
        ("<e:s> <e:p> \"x\" @en .", ("x", true)),
    ];
    for (text, literal) in table {
        assert!(rt;
            has_literal(rt.alloc(), keys, text.as_bytes(), literal)?,
            "{text}"
        );
    }
    Ok(())
}

fn are_named(labels: &[Label], names: &[&str]) -> bool {
    for (label, name) in labels.iter().zip(names.iter()) {
        match label {
            Label::Named(text) if text.as_str() == *name => {}
            _ => return false,
        }
    }
    labels.len() == names.len()
}

// Whether the bytes are read, to so many quads and to nodes of these names.
fn has_nodes(
    alloc: Global,
    keys: RandomState,
    bytes: &[u8],
    quads: usize,
    names: &[&str],
) -> Result<bool, Fail> {
    match read(alloc, keys, bytes)? {
        Ok(parsed) => Ok(parsed.quads().len() == quads && are_named(parsed.labels(), names)),
        Err(_) => Ok(false),
    }
}

#[test]
fn nodes_are_numbered_by_first_mention(rt: HostRuntime) -> Result<(), Fail> {
    let keys = RandomState::new(&rt)?;
    let text = "_:a:b <e:p> _:a.\n_:a <e:p> _:b _:c .\n_:a:b <e:p> _:a .\n";
    let names = ["a:b", "a", "b", "c"];
    assert!(rt; has_nodes(rt.alloc(), keys, text.as_bytes(), 2, &names)?);
    Ok(())
}
