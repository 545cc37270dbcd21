//! What `other` says of files: another output that the standard allows, or that there is none. The outputs were computed
//! apart, by a script that goes by the standard's steps and breaks ties by the order of the nodes.
use crate::ending::expect;
use run_trials::documents::{PAIR, RING, TURNED};
use run_trials::{done, nothing_written, plain};
use std::hash::RandomState;
use std::test::Fail;

// The other one of the two outputs of three quads.
const OTHER_TURNED: &str = "_:c14n0 <e:p> _:c14n2 _:c14n1 .
_:c14n1 <e:p> _:c14n0 _:c14n2 .
_:c14n2 <e:p> _:c14n1 _:c14n0 .
";

// The same three quads, turned round the other way: they have the same two outputs.
const TURNED_BACK: &str = "_:a <e:p> _:c _:b .
_:b <e:p> _:a _:c .
_:c <e:p> _:b _:a .
";

// Four quads with two outputs.
const FOUR: &str = "_:s0 <e:p> _:o0 _:g0 .
_:s0 <e:p> _:o1 _:g1 .
_:s1 <e:p> _:o0 _:g1 .
_:s1 <e:p> _:o1 _:g0 .
";

// The other one.
const OTHER_FOUR: &str = "_:c14n4 <e:p> _:c14n0 _:c14n2 .
_:c14n4 <e:p> _:c14n3 _:c14n1 .
_:c14n5 <e:p> _:c14n0 _:c14n1 .
_:c14n5 <e:p> _:c14n3 _:c14n2 .
";

// The four quads twice, each with a literal: four outputs.
const FOUR_TWICE: &str = "_:s0 <e:p> _:o0 _:g0 .
_:s0 <e:p> _:o1 _:g1 .
_:s1 <e:p> _:o0 _:g1 .
_:s1 <e:p> _:o1 _:g0 .
_:s0 <e:q> \"1\" .
_:s1 <e:q> \"1\" .
_:s0b <e:p> _:o0b _:g0b .
_:s0b <e:p> _:o1b _:g1b .
_:s1b <e:p> _:o0b _:g1b .
_:s1b <e:p> _:o1b _:g0b .
_:s0b <e:q> \"2\" .
_:s1b <e:q> \"2\" .
";

// One of them.
const OTHER_FOUR_TWICE: &str = "_:c14n1 <e:p> _:c14n0 _:c14n3 .
_:c14n1 <e:p> _:c14n5 _:c14n4 .
_:c14n1 <e:q> \"2\" .
_:c14n2 <e:p> _:c14n0 _:c14n4 .
_:c14n2 <e:p> _:c14n5 _:c14n3 .
_:c14n2 <e:q> \"2\" .
_:c14n7 <e:p> _:c14n11 _:c14n9 .
_:c14n7 <e:p> _:c14n6 _:c14n10 .
_:c14n7 <e:q> \"1\" .
_:c14n8 <e:p> _:c14n11 _:c14n10 .
_:c14n8 <e:p> _:c14n6 _:c14n9 .
_:c14n8 <e:q> \"1\" .
";

// The Latin square of order three, as subject, object and graph name: twelve outputs.
const LATIN: &str = "_:r0 <e:p> _:c0 _:v0 .
_:r0 <e:p> _:c1 _:v1 .
_:r0 <e:p> _:c2 _:v2 .
_:r1 <e:p> _:c0 _:v1 .
_:r1 <e:p> _:c1 _:v2 .
_:r1 <e:p> _:c2 _:v0 .
_:r2 <e:p> _:c0 _:v2 .
_:r2 <e:p> _:c1 _:v0 .
_:r2 <e:p> _:c2 _:v1 .
";

// One of them.
const OTHER_LATIN: &str = "_:c14n1 <e:p> _:c14n0 _:c14n6 .
_:c14n1 <e:p> _:c14n4 _:c14n8 .
_:c14n1 <e:p> _:c14n5 _:c14n7 .
_:c14n2 <e:p> _:c14n0 _:c14n8 .
_:c14n2 <e:p> _:c14n4 _:c14n7 .
_:c14n2 <e:p> _:c14n5 _:c14n6 .
_:c14n3 <e:p> _:c14n0 _:c14n7 .
_:c14n3 <e:p> _:c14n4 _:c14n6 .
_:c14n3 <e:p> _:c14n5 _:c14n8 .
";

#[test]
fn another_output(rt: HostRuntime) -> Result<(), Fail> {
    let keys = RandomState::new(&rt)?;
    let words: &[&str] = &["other", "f"];
    let cases: [(&[&str], &str, &str); 6] = [
        (words, TURNED, OTHER_TURNED),
        (words, TURNED_BACK, OTHER_TURNED),
        (words, FOUR, OTHER_FOUR),
        (&["other", "--limit", "150", "f"], FOUR, OTHER_FOUR),
        (words, FOUR_TWICE, OTHER_FOUR_TWICE),
        (words, LATIN, OTHER_LATIN),
    ];
    for (words, text, out) in cases {
        expect(&rt, rt.alloc(), keys, &plain(words, text), None, done(out))?;
    }
    Ok(())
}

#[test]
fn no_other_output(rt: HostRuntime) -> Result<(), Fail> {
    let keys = RandomState::new(&rt)?;
    let none = "rdfc: no other output\n";
    let wrong = "rdfc: the words are not a command\n";
    let cases: [(&[&str], &str, u8, Option<u8>, &str); 9] = [
        (&["other", "f"], "", 1, None, none),
        (&["other", "f"], PAIR, 1, None, none),
        (
            &["other", "--trig", "--limit", "108", "f"],
            RING,
            1,
            None,
            none,
        ),
        (
            &["other", "--limit", "149", "f"],
            FOUR,
            7,
            Some(0),
            "rdfc: f: work limit 149 passed\n",
        ),
        (
            &["other", "f"],
            "<e:a> .\n",
            4,
            Some(0),
            "rdfc: f:1: not an N-Quads line\n",
        ),
        (&["other"], "", 2, None, wrong),
        (&["other", "f", "f"], "", 2, None, wrong),
        (&["other", "--map", "f"], "", 2, None, wrong),
        (&["other", "-f"], "", 2, None, wrong),
    ];
    for (words, text, code, file, note) in cases {
        let want = nothing_written(code, note);
        expect(&rt, rt.alloc(), keys, &plain(words, text), file, want)?;
    }
    Ok(())
}
