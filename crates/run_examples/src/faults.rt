//! What a run answers where a call on the outside fails, a file is cut short, or the work is more than its limit.
use crate::trials::{canon, expect};
use run_trials::{Ending, Trial, done, nothing_written, plain};
use std::alloc::{AllocError, Global};
use std::hash::RandomState;
use std::process::Abort;
use std::test::Fail;

// Two nodes that point at each other, in 46 bytes.
const MUTUAL: &str = "_:a <http://e/p> _:b .
_:b <http://e/p> _:a .
";

// Its canonical form, in 62 bytes.
const NAMED_MUTUAL: &str = "_:c14n0 <http://e/p> _:c14n1 .
_:c14n1 <http://e/p> _:c14n0 .
";

const LEAN_MUTUAL: &str = "_:e0 <http://e/p> _:e1 .
_:e1 <http://e/p> _:e0 .
";

// Words, how many calls on the shelf they make for `f` and for `g`, and what they write of `MUTUAL` in both.
#[derive(Clone, Copy)]
struct Reads<'a> {
    words: &'a [&'a str],
    first: u64,
    second: u64,
    out: &'a str,
}

// Where a call fails, its file is told; the call behind the last is never made.
fn fail_each_read(
    rt: &impl Abort,
    alloc: Global,
    keys: RandomState,
    reads: Reads<'_>,
) -> Result<(), Fail> {
    let all = reads.first.saturating_add(reads.second);
    for call in 0..=all {
        let trial = Trial {
            other: MUTUAL,
            shelf: &[call],
            ..plain(reads.words, MUTUAL)
        };
        let want = if call < reads.first {
            nothing_written(5, "rdfc: f: read failed\n")
        } else if call < all {
            nothing_written(5, "rdfc: g: read failed\n")
        } else {
            done(reads.out)
        };
        expect(rt, alloc, keys, &trial, want)?;
    }
    Ok(())
}

// A file of 46 bytes in pieces of seven takes nine calls: the start, seven pieces, and the call that finds the end. So
// no file is started or read twice, and no other file is started.
#[test]
fn each_file_is_read_once_and_each_failed_read_is_told(rt: HostRuntime) -> Result<(), Fail> {
    let keys = RandomState::new(&rt)?;
    let cases: [(&[&str], u64, &str); 6] = [
        (&["canon", "f"], 0, NAMED_MUTUAL),
        (&["canon", "--trig", "f"], 0, NAMED_MUTUAL),
        (&["map", "f"], 0, "_:a _:c14n0\n_:b _:c14n1\n"),
        (&["ties", "f"], 0, "units 12\nties 1\njoined 1\n"),
        (&["lean", "f"], 0, LEAN_MUTUAL),
        (&["compare", "f", "g"], 9, "_:a _:a\n_:b _:b\n"),
    ];
    for (words, second, out) in cases {
        let reads = Reads {
            words,
            first: 9,
            second,
            out,
        };
        fail_each_read(&rt, rt.alloc(), keys, reads)?;
    }
    Ok(())
}

// The 62 bytes go out in seven calls of at most ten.
#[test]
fn nothing_is_put_after_a_put_that_failed(rt: HostRuntime) -> Result<(), Fail> {
    let keys = RandomState::new(&rt)?;
    let fronts = [
        "",
        "_:c14n0 <h",
        "_:c14n0 <http://e/p>",
        "_:c14n0 <http://e/p> _:c14n1 .",
        "_:c14n0 <http://e/p> _:c14n1 .\n_:c14n1 <",
        "_:c14n0 <http://e/p> _:c14n1 .\n_:c14n1 <http://e/p",
        "_:c14n0 <http://e/p> _:c14n1 .\n_:c14n1 <http://e/p> _:c14n0 ",
    ];
    for (call, front) in (0..).zip(fronts) {
        let trial = Trial {
            out: &[call],
            ..canon(MUTUAL)
        };
        let want = Ending {
            code: 6,
            out: front.as_bytes(),
            notes: b"rdfc: write failed\n",
        };
        expect(&rt, rt.alloc(), keys, &trial, want)?;
    }
    let trial = Trial {
        out: &[7],
        ..canon(MUTUAL)
    };
    expect(&rt, rt.alloc(), keys, &trial, done(NAMED_MUTUAL))
}

// The notes take ten bytes in a call.
#[test]
fn a_note_that_fails_changes_no_status(rt: HostRuntime) -> Result<(), Fail> {
    let keys = RandomState::new(&rt)?;
    let cases: [(&[u64], &str); 3] = [
        (&[0], ""),
        (&[1], "rdfc: f:1:"),
        (&[9], "rdfc: f:1: not an N-Quads line\n"),
    ];
    for (notes, note) in cases {
        let trial = Trial {
            notes,
            ..canon("no line")
        };
        expect(&rt, rt.alloc(), keys, &trial, nothing_written(4, note))?;
    }
    Ok(())
}

// What is wanted of the first bytes of `MUTUAL`, so many of them. Of the first line alone `_:b` has the lesser hash:
// that of `_:z <http://e/p> _:a .` begins with 5b, that of `_:a <http://e/p> _:z .` with 83.
fn ending_of_front(len: usize) -> Ending<'static> {
    match len {
        0 => done(""),
        22 | 23 => done("_:c14n1 <http://e/p> _:c14n0 .\n"),
        45 | 46 => done(NAMED_MUTUAL),
        1..=21 => nothing_written(4, "rdfc: f:1: not an N-Quads line\n"),
        _ => nothing_written(4, "rdfc: f:2: not an N-Quads line\n"),
    }
}

#[test]
fn a_file_is_cut_short_at_each_byte(rt: HostRuntime) -> Result<(), Fail> {
    let keys = RandomState::new(&rt)?;
    for len in 0..=46 {
        let front = MUTUAL.get(..len).ok_or(AllocError)?;
        expect(&rt, rt.alloc(), keys, &canon(front), ending_of_front(len))?;
    }
    Ok(())
}

fn push_line(alloc: Global, text: &mut String, from: u32, to: u32) -> Result<(), AllocError> {
    let line = format!(in alloc; "_:e{from} <e:p> _:e{to} .\n")?;
    text.push_str(line.as_str())
}

fn push_lines_from(
    alloc: Global,
    text: &mut String,
    from: u32,
    count: u32,
) -> Result<(), AllocError> {
    for to in 0..count {
        if to != from {
            push_line(alloc, text, from, to)?;
        }
    }
    Ok(())
}

// Each of so many nodes points at each other one.
fn complete_graph(alloc: Global, count: u32) -> Result<String, AllocError> {
    let mut text = String::new(alloc);
    for from in 0..count {
        push_lines_from(alloc, &mut text, from, count)?;
    }
    Ok(text)
}

// One node points at each other one.
fn star(alloc: Global, count: u32) -> Result<String, AllocError> {
    let mut text = String::new(alloc);
    push_lines_from(alloc, &mut text, 0, count)?;
    Ok(text)
}

// Each node points at itself.
fn loops(alloc: Global, count: u32) -> Result<String, AllocError> {
    let mut text = String::new(alloc);
    for node in 0..count {
        push_line(alloc, &mut text, node, node)?;
    }
    Ok(text)
}

#[test]
fn nodes_that_are_alike_end_within_the_limit(rt: HostRuntime) -> Result<(), Fail> {
    let keys = RandomState::new(&rt)?;
    let alloc = rt.alloc();
    let seven = complete_graph(alloc, 7)?;
    let twelve = complete_graph(alloc, 12)?;
    let leaves = star(alloc, 9)?;
    let thousand = loops(alloc, 1_000)?;
    let brackets = "(".repeat(alloc, 100_000)?;
    let passed = "rdfc: f: work limit 200000 passed\n";
    let few = "rdfc: f: work limit 999 passed\n";
    let cases: [(&[&str], &str, Ending<'_>); 6] = [
        (&["canon", "f"], twelve.as_str(), nothing_written(7, passed)),
        (&["lean", "f"], seven.as_str(), done(seven.as_str())),
        (
            &["ties", "f"],
            leaves.as_str(),
            done("units 16\nties 7\njoined 7\n"),
        ),
        (
            &["ties", "f"],
            thousand.as_str(),
            done("units 1000\nties 999\njoined 999\n"),
        ),
        (
            &["canon", "--limit", "999", "f"],
            thousand.as_str(),
            nothing_written(7, few),
        ),
        (
            &["canon", "--trig", "f"],
            brackets.as_str(),
            nothing_written(4, "rdfc: f:1: not TriG\n"),
        ),
    ];
    for (words, text, want) in cases {
        expect(&rt, alloc, keys, &plain(words, text), want)?;
    }
    Ok(())
}
