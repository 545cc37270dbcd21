//! What a run answers, writes and notes, over a shelf and sinks in memory.
use crate::trials::{assert_ended, canon, expect};
use rdfc_cli::Status;
use run_trials::documents::{FIVE, PAIR, RING, TURNED, TWO_RINGS};
use run_trials::{Ending, Trial, done, nothing_written, outcome_of, plain};
use std::hash::RandomState;
use std::test::Fail;

// Two nodes with different first-degree hashes, and the canonical form: the example of unique
// hashes of RDF Dataset Canonicalization.
const DIFFERENT: &str = "<http://example.com/#p> <http://example.com/#q> _:e0 .
<http://example.com/#p> <http://example.com/#r> _:e1 .
_:e0 <http://example.com/#s> <http://example.com/#u> .
_:e1 <http://example.com/#t> <http://example.com/#u> .
";

const NAMED: &str = "<http://example.com/#p> <http://example.com/#q> _:c14n0 .
<http://example.com/#p> <http://example.com/#r> _:c14n1 .
_:c14n0 <http://example.com/#s> <http://example.com/#u> .
_:c14n1 <http://example.com/#t> <http://example.com/#u> .
";

// The SHA-256 of no bytes, and a line feed; and the SHA-384.
const HASH_OF_NOTHING: &str = "e3b0c44298fc1c149afbf4c8996fb92427ae41e4649b934ca495991b7852b855
";

const LONG_HASH_OF_NOTHING: &str =
    "38b060a751ac96384cd9327eb1b1e36a21fdb71114be07434c0cc7bf63f6e1da274edebfe76f65fbd51ad2f14898b95b
";

const NAMED_PAIR: &str = "_:c14n0 <e:p> _:c14n1 .
_:c14n1 <e:p> _:c14n0 .
";

// The same in two graphs.
const PAIR_TWICE: &str = "_:a <e:p> _:b <e:g> .
_:b <e:p> _:a <e:g> .
_:a <e:p> _:b <e:h> .
_:b <e:p> _:a <e:h> .
";

// Two nodes that each point at themselves.
const LOOPS: &str = "_:a <e:p> _:a .
_:b <e:p> _:b .
";

// Each of three nodes points at each other one, in two graphs.
const THREE_TWICE: &str = "_:a <e:p> _:b <e:g> .
_:a <e:p> _:c <e:g> .
_:b <e:p> _:a <e:g> .
_:b <e:p> _:c <e:g> .
_:c <e:p> _:a <e:g> .
_:c <e:p> _:b <e:g> .
_:a <e:p> _:b <e:h> .
_:a <e:p> _:c <e:h> .
_:b <e:p> _:a <e:h> .
_:b <e:p> _:c <e:h> .
_:c <e:p> _:a <e:h> .
_:c <e:p> _:b <e:h> .
";

// Four quads, of which the standard allows two canonical forms.
const FOUR: &str = "_:s0 <e:p> _:o0 _:g0 .
_:s0 <e:p> _:o1 _:g1 .
_:s1 <e:p> _:o0 _:g1 .
_:s1 <e:p> _:o1 _:g0 .
";

#[test]
fn canon_writes_each_line_once_and_in_order(rt: HostRuntime) -> Result<(), Fail> {
    let keys = RandomState::new(&rt)?;
    let cases = [
        ("", ""),
        (
            "# head\r\n<http://e/s>\t<http://e/p><http://e/o>.# c",
            "<http://e/s> <http://e/p> <http://e/o> .\n",
        ),
        (
            "<e:b> <e:p> <e:o> .\n<e:a> <e:p> <e:o> .\n<e:b> <e:p> <e:o> .\n",
            "<e:a> <e:p> <e:o> .\n<e:b> <e:p> <e:o> .\n",
        ),
        (
            "_:a <e:p> <e:o> .\n<e:s> <e:p> <e:o> .\n",
            "<e:s> <e:p> <e:o> .\n_:c14n0 <e:p> <e:o> .\n",
        ),
        ("_:x <e:p> \"v\" _:x .\n", "_:c14n0 <e:p> \"v\" _:c14n0 .\n"),
        ("_:a <e:p> \"x\\ty\" .\n", "_:c14n0 <e:p> \"x\\ty\" .\n"),
        ("<e:s> <e:p> <x:\\u00E9> .\n", "<e:s> <e:p> <x:é> .\n"),
        (
            "<e:s> <e:p> \"a\\tb\\u0041\\u007f\\u000B\\\"\" .\n",
            "<e:s> <e:p> \"a\\tbA\\u007F\\u000B\\\"\" .\n",
        ),
        (
            "<e:s> <e:p> \"x\"@en-GB .\n<e:s> <e:p> \"x\"^^<http://www.w3.org/2001/XMLSchema#string> .\n",
            "<e:s> <e:p> \"x\" .\n<e:s> <e:p> \"x\"@en-GB .\n",
        ),
        (DIFFERENT, NAMED),
        (PAIR, NAMED_PAIR),
        (LOOPS, "_:c14n0 <e:p> _:c14n0 .\n_:c14n1 <e:p> _:c14n1 .\n"),
    ];
    for (text, want) in cases {
        expect(&rt, rt.alloc(), keys, &canon(text), done(want))?;
    }
    Ok(())
}

#[test]
fn each_command_writes_its_text(rt: HostRuntime) -> Result<(), Fail> {
    let keys = RandomState::new(&rt)?;
    let cases: [(&[&str], &str, &str); 15] = [
        (&["hash", "f"], "", HASH_OF_NOTHING),
        (&["hash", "--hash", "sha256", "f"], "", HASH_OF_NOTHING),
        (&["hash", "--hash", "sha384", "f"], "", LONG_HASH_OF_NOTHING),
        (&["map", "f"], "", ""),
        (&["map", "f"], PAIR, "_:a _:c14n0\n_:b _:c14n1\n"),
        (&["canon", "--limit", "12", "f"], PAIR, NAMED_PAIR),
        (&["ties", "f"], PAIR, "units 12\nties 1\njoined 1\n"),
        (&["ties", "f"], PAIR_TWICE, "units 12\nties 1\njoined 1\n"),
        (&["ties", "f"], LOOPS, "units 2\nties 1\njoined 1\n"),
        (&["ties", "f"], RING, "units 108\nties 5\njoined 5\n"),
        (&["ties", "f"], TWO_RINGS, "units 54\nties 5\njoined 5\n"),
        (
            &["ties", "--limit", "4565", "f"],
            FIVE,
            "units 4565\nties 119\njoined 119\n",
        ),
        (&["ties", "f"], THREE_TWICE, "units 219\nties 5\njoined 5\n"),
        (
            &["ties", "--related", "each", "f"],
            THREE_TWICE,
            "units 219\nties 5\njoined 5\n",
        ),
        (
            &["ties", "--related", "once", "--limit", "75", "f"],
            THREE_TWICE,
            "units 75\nties 5\njoined 5\n",
        ),
    ];
    for (words, text, out) in cases {
        expect(&rt, rt.alloc(), keys, &plain(words, text), done(out))?;
    }
    Ok(())
}

#[test]
fn a_tie_that_is_not_joined_is_told(rt: HostRuntime) -> Result<(), Fail> {
    let keys = RandomState::new(&rt)?;
    let cases: [(&str, &str, &str); 3] = [
        (
            "canon",
            TURNED,
            "_:c14n0 <e:p> _:c14n1 _:c14n2 .\n_:c14n1 <e:p> _:c14n2 _:c14n0 .\n_:c14n2 <e:p> _:c14n0 _:c14n1 .\n",
        ),
        (
            "ties",
            TURNED,
            "units 105\nties 5\njoined 1\ncanon\nleft _:a _:b _:c\nright _:a _:c _:b\n",
        ),
        (
            "ties",
            FOUR,
            "units 150\nties 7\njoined 0\ncanon\nleft _:o0 _:g0 _:g1 _:o1 _:s0 _:s1\nright _:o0 _:g0 _:g1 _:o1 _:s1 _:s0\n",
        ),
    ];
    for (word, text, out) in cases {
        let want = Ending {
            code: 3,
            out: out.as_bytes(),
            notes: b"rdfc: f: a tie is unsettled\n",
        };
        expect(&rt, rt.alloc(), keys, &plain(&[word, "f"], text), want)?;
    }
    Ok(())
}

#[test]
fn what_is_not_done_is_noted_and_nothing_is_written(rt: HostRuntime) -> Result<(), Fail> {
    let keys = RandomState::new(&rt)?;
    let wrong = "rdfc: the words are not a command\n";
    let cases: [(&[&str], &str, &[u64], u8, &str); 24] = [
        (&[], "", &[], 2, wrong),
        (&["canon"], "", &[], 2, wrong),
        (&["canon", ""], "", &[], 2, wrong),
        (&["canon", "-f"], "", &[], 2, wrong),
        (&["canon", "f", "f"], "", &[], 2, wrong),
        (&["--help"], "", &[], 2, wrong),
        (&["canon", "--limit", "0", "f"], "", &[], 2, wrong),
        (&["canon", "--limit", "07", "f"], "", &[], 2, wrong),
        (&["canon", "--limit", "+7", "f"], "", &[], 2, wrong),
        (&["canon", "--limit", "100000001", "f"], "", &[], 2, wrong),
        (
            &["canon", "--limit", "7", "--limit", "7", "f"],
            "",
            &[],
            2,
            wrong,
        ),
        (&["canon", "f", "--limit", "7"], "", &[], 2, wrong),
        (&["canon", "--limit", "f"], "", &[], 2, wrong),
        (&["canon", "--limit"], "", &[], 2, wrong),
        (&["canon", "--hash", "md5", "f"], "", &[], 2, wrong),
        (&["canon", "--related", "twice", "f"], "", &[], 2, wrong),
        (&["canon", "--base", "e:", "f"], "", &[], 2, wrong),
        (
            &["hash", "f"],
            "<e:a> .",
            &[],
            4,
            "rdfc: f:1: not an N-Quads line\n",
        ),
        (
            &["canon", "f"],
            "#\n<a> <e:p> <e:o> .",
            &[],
            4,
            "rdfc: f:2: IRI without a scheme\n",
        ),
        (&["canon", "h"], "", &[], 5, "rdfc: h: read failed\n"),
        (
            &["canon", "f"],
            "<e:a> .",
            &[1],
            5,
            "rdfc: f: read failed\n",
        ),
        (
            &["ties", "--limit", "11", "f"],
            PAIR,
            &[],
            7,
            "rdfc: f: work limit 11 passed\n",
        ),
        (
            &["canon", "--limit", "4564", "f"],
            FIVE,
            &[],
            7,
            "rdfc: f: work limit 4564 passed\n",
        ),
        (
            &["map", "--limit", "2000", "f"],
            FIVE,
            &[],
            7,
            "rdfc: f: work limit 2000 passed\n",
        ),
    ];
    for (words, text, shelf, code, note) in cases {
        let trial = Trial {
            shelf,
            ..plain(words, text)
        };
        expect(&rt, rt.alloc(), keys, &trial, nothing_written(code, note))?;
    }
    Ok(())
}

// Where an allocation of the run is refused, it ends with `NoMemory` and an untouched output.
// `tools/fail-alloc --test` refuses each in turn, and reads the status that is printed.
#[test]
fn want_of_memory_writes_nothing(rt: HostRuntime) -> Result<(), Fail> {
    let keys = RandomState::new(&rt)?;
    let trial = canon("_:x <e:p> \"v\" _:x .");
    let ended = outcome_of(rt.alloc(), keys, &trial)?;
    let want = match ended.status {
        Status::NoMemory => nothing_written(8, "rdfc: out of memory\n"),
        _ => done("_:c14n0 <e:p> \"v\" _:c14n0 .\n"),
    };
    assert_ended(&rt, &ended, want, &trial);
    println!(rt; "{:?}", ended.status)?;
    Ok(())
}
