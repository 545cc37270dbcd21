//! Documents that come in pieces: wherever they are cut, the answer is that for the whole.
ghost use Rattle.std.specs.Prelude.{◌≤◌, length};

use nquads_reader::{LineReader, ReadFault, read_nquads};
use rdf_terms::{Label, Parsed, Quad, TermTable};
use std::alloc::Global;
use std::hash::RandomState;
use std::process::Abort;
use std::test::Fail;

// A document, how many quads and nodes it has, and why it is refused, if it is.
#[derive(Clone, Copy)]
struct Case<'a> {
    text: &'a str,
    quads: usize,
    nodes: usize,
    fault: Option<ReadFault>,
}

// Line ends of each kind, escapes, a character of two bytes, labels, and faults of lines.
const CASES: [Case<'static>; 7] = [
    Case {
        text: "# head\r\n<http://e/s>\t<http://e/p><http://e/o>.# c",
        quads: 1,
        nodes: 0,
        fault: None,
    },
    Case {
        text: "<http://e/s> <http://e/p> <x:\\u00E9> .\n",
        quads: 1,
        nodes: 0,
        fault: None,
    },
    Case {
        text: "<http://e/s> <http://e/p> <x:é> .\n",
        quads: 1,
        nodes: 0,
        fault: None,
    },
    Case {
        text: "_:a <e:p> _:b .\r_:b <e:p> _:a .\r\n\n_:a <e:p> _:c .\r\r\n_:a <e:p> _:b .\r",
        quads: 3,
        nodes: 3,
        fault: None,
    },
    Case {
        text: "<e:s> <e:p> <e:o> .\n<a> <e:p> <e:o> .\n<e:s> <e:p> <e:o>\n",
        quads: 0,
        nodes: 0,
        fault: Some(ReadFault::RelativeIri { line: 2 }),
    },
    Case {
        text: "<e:s> <e:p> <e:o> .\n<e:a> <e:p> <e:o> .\n<e:s> <e:p> <e:o>\n",
        quads: 0,
        nodes: 0,
        fault: Some(ReadFault::BadLine { line: 3 }),
    },
    Case {
        text: "\r\n\r<e:s> <e:p> \"\\u00e\" .\r\n<a> <e:p> <e:o> .",
        quads: 0,
        nodes: 0,
        fault: Some(ReadFault::BadLine { line: 3 }),
    },
];

fn in_two(alloc: Global, keys: RandomState, front: &[u8], back: &[u8]) -> Result<Parsed, ReadFault>
    requires front { length front.now ≤ 1000 }
    requires back { length back.now ≤ 1000 }
{
    let mut reader = LineReader::new(alloc, keys);
    reader.feed(front)?;
    reader.feed(back)?;
    reader.finish()
}

fn by_bytes(alloc: Global, keys: RandomState, bytes: &[u8]) -> Result<Parsed, ReadFault>
    requires { length bytes.now ≤ 1000 }
{
    let mut reader = LineReader::new(alloc, keys);
    for place in 0..bytes.len() {
        reader.feed(&bytes[place..place + 1])?;
    }
    reader.finish()
}

// Whether the tables have the same terms under the same numbers.
fn have_same_terms(terms: &TermTable, others: &TermTable) -> bool {
    for number in 0..terms.len() {
        match (terms.get(number), others.get(number)) {
            (Some(term), Some(other)) if *term == *other => {}
            _ => return false,
        }
    }
    terms.len() == others.len()
}

fn are_same_quads(quads: &[Quad], others: &[Quad]) -> bool {
    quads == others
}

fn is_same_label(label: &Label, other: &Label) -> bool {
    match label {
        Label::Named(text) => match other {
            Label::Named(name) => text.as_str() == name.as_str(),
            Label::Anonymous(_) => false,
        },
        Label::Anonymous(number) => match other {
            Label::Named(_) => false,
            Label::Anonymous(other) => *number == *other,
        },
    }
}

fn are_same_labels(labels: &[Label], others: &[Label]) -> bool {
    for (label, other) in labels.iter().zip(others.iter()) {
        if !is_same_label(label, other) {
            return false;
        }
    }
    labels.len() == others.len()
}

fn is_same_document(parsed: &Parsed, other: &Parsed) -> bool {
    are_same_quads(parsed.quads(), other.quads())
        && are_same_labels(parsed.labels(), other.labels())
        && have_same_terms(parsed.terms(), other.terms())
}

fn is_same(answer: &Result<Parsed, ReadFault>, other: &Result<Parsed, ReadFault>) -> bool {
    match answer {
        Ok(parsed) => match other {
            Ok(other) => is_same_document(parsed, other),
            Err(_) => false,
        },
        Err(fault) => match other {
            Ok(_) => false,
            Err(other) => *fault == *other,
        },
    }
}

// Whether a document that is cut at one place gives the answer, for each place.
fn is_answer_of_cuts(
    alloc: Global,
    keys: RandomState,
    answer: &Result<Parsed, ReadFault>,
    bytes: &[u8],
) -> bool
    requires { length bytes.now ≤ 1000 }
{
    for place in 0..=bytes.len() {
        let cut = in_two(alloc, keys, &bytes[..place], &bytes[place..]);
        if !is_same(answer, &cut) {
            return false;
        }
    }
    true
}

// Whether the bytes are read as the case says.
fn is_told(answer: &Result<Parsed, ReadFault>, case: &Case<'_>) -> bool {
    match answer {
        Ok(parsed) => {
            case.fault.is_none()
                && parsed.quads().len() == case.quads
                && parsed.labels().len() == case.nodes
        }
        Err(fault) => case.fault == Some(*fault),
    }
}

// Whether the document gives the answer of the case, whole, cut at each place, and byte by byte.
fn is_read_alike(alloc: Global, keys: RandomState, case: &Case<'_>) -> Result<bool, Fail> {
    let bytes = case.text.as_bytes();
    if bytes.len() > 1000 {
        return Err(Fail::from("a text is too long for this table"));
    }
    let whole = read_nquads(alloc, keys, bytes);
    let single = by_bytes(alloc, keys, bytes);
    Ok(
        is_told(&whole, case)
            && is_same(&whole, &single)
            && is_answer_of_cuts(alloc, keys, &whole, bytes),
    )
}

fn assert_alike(rt: &impl Abort, holds: bool, text: &str) {
    assert!(rt; holds, "{text:?}");
}

#[test]
fn each_cut_gives_the_same_answer(rt: HostRuntime) -> Result<(), Fail> {
    let keys = RandomState::new(&rt)?;
    for case in CASES {
        let holds = is_read_alike(rt.alloc(), keys, &case)?;
        assert_alike(&rt, holds, case.text);
    }
    Ok(())
}
