//! What `lean` writes of graphs (RDF 1.1 Semantics, section 5).
use crate::ending::expect;
use run_trials::documents::{FIVE, PAIR};
use run_trials::{done, nothing_written, plain};
use std::hash::RandomState;
use std::test::Fail;

// The node `y` may be taken for the name `<e:a>`.
const TAIL: &str = "<e:a> <e:p> _:x .
_:y <e:p> _:x .
";

// The same node again, which nothing else can be taken for.
const LOOP: &str = "<e:a> <e:p> _:x .
_:x <e:p> _:x .
";

const LEAVES: &str = "_:h <e:p> _:a .
_:h <e:p> _:b .
_:h <e:p> <e:g> .
";

const TWO_PATHS: &str = "_:a <e:p> _:b .
_:b <e:q> _:c .
<e:s> <e:p> _:d .
_:d <e:q> \"v\" .
";

const NAMES: &str = "<e:a> <e:p> <e:b> .
<e:a> <e:p> \"v\"@en .
";

const LEAN_FIVE: &str = "_:e0 <e:p> _:e1 .
_:e0 <e:p> _:e2 .
_:e0 <e:p> _:e3 .
_:e0 <e:p> _:e4 .
_:e1 <e:p> _:e0 .
_:e1 <e:p> _:e2 .
_:e1 <e:p> _:e3 .
_:e1 <e:p> _:e4 .
_:e2 <e:p> _:e0 .
_:e2 <e:p> _:e1 .
_:e2 <e:p> _:e3 .
_:e2 <e:p> _:e4 .
_:e3 <e:p> _:e0 .
_:e3 <e:p> _:e1 .
_:e3 <e:p> _:e2 .
_:e3 <e:p> _:e4 .
_:e4 <e:p> _:e0 .
_:e4 <e:p> _:e1 .
_:e4 <e:p> _:e2 .
_:e4 <e:p> _:e3 .
";

#[test]
fn the_lean_graph_and_the_map_onto_it(rt: HostRuntime) -> Result<(), Fail> {
    let keys = RandomState::new(&rt)?;
    let graph: &[&str] = &["lean", "f"];
    let map: &[&str] = &["lean", "--map", "f"];
    let cases: [(&[&str], &str, &str); 15] = [
        (graph, "", ""),
        (map, "", ""),
        (graph, TAIL, "<e:a> <e:p> _:e0 .\n"),
        (&["lean", "--limit", "4", "f"], TAIL, "<e:a> <e:p> _:e0 .\n"),
        (map, TAIL, "_:e0 _:e0\n_:e1 <e:a>\n"),
        (
            &["lean", "--limit", "4", "--map", "f"],
            TAIL,
            "_:e0 _:e0\n_:e1 <e:a>\n",
        ),
        (graph, LOOP, "<e:a> <e:p> _:e0 .\n_:e0 <e:p> _:e0 .\n"),
        (map, LOOP, "_:e0 _:e0\n"),
        (graph, LEAVES, "_:e0 <e:p> <e:g> .\n"),
        (map, LEAVES, "_:e0 _:e0\n_:e1 <e:g>\n_:e2 <e:g>\n"),
        (graph, TWO_PATHS, "<e:s> <e:p> _:e3 .\n_:e3 <e:q> \"v\" .\n"),
        (
            map,
            TWO_PATHS,
            "_:e0 <e:s>\n_:e1 _:e3\n_:e2 \"v\"\n_:e3 _:e3\n",
        ),
        (
            graph,
            NAMES,
            "<e:a> <e:p> \"v\"@en .\n<e:a> <e:p> <e:b> .\n",
        ),
        (map, NAMES, ""),
        // As many partial maps as there are injective ones: 1 + 5 + 20 + 60 + 120 + 120.
        (&["lean", "--limit", "326", "f"], FIVE, LEAN_FIVE),
    ];
    for (words, text, out) in cases {
        expect(&rt, rt.alloc(), keys, &plain(words, text), None, done(out))?;
    }
    Ok(())
}

#[test]
fn what_is_not_leaned(rt: HostRuntime) -> Result<(), Fail> {
    let keys = RandomState::new(&rt)?;
    let named = "<e:a> <e:p> <e:b> <e:g> .\n";
    let wrong = "rdfc: the words are not a command\n";
    let cases: [(&[&str], &str, u8, Option<u8>, &str); 12] = [
        (
            &["lean", "f"],
            named,
            4,
            Some(0),
            "rdfc: f: a quad has a graph name\n",
        ),
        (
            &["lean", "--map", "f"],
            "_:a <e:p> _:b .\n_:a <e:p> _:b _:b .\n",
            4,
            Some(0),
            "rdfc: f: a quad has a graph name\n",
        ),
        (
            &["lean", "f"],
            "<e:a> .\n",
            4,
            Some(0),
            "rdfc: f:1: not an N-Quads line\n",
        ),
        (
            &["lean", "--limit", "1", "f"],
            PAIR,
            7,
            None,
            "rdfc: f: search limit 1 passed\n",
        ),
        (
            &["lean", "--limit", "325", "f"],
            FIVE,
            7,
            None,
            "rdfc: f: search limit 325 passed\n",
        ),
        (&["lean"], "", 2, None, wrong),
        (&["lean", "--map"], "", 2, None, wrong),
        (&["lean", "f", "f"], "", 2, None, wrong),
        (&["lean", "--map", "--map", "f"], "", 2, None, wrong),
        (&["lean", "--hash", "sha256", "f"], "", 2, None, wrong),
        (&["lean", "--related", "once", "f"], "", 2, None, wrong),
        (&["canon", "--map", "f"], "", 2, None, wrong),
    ];
    for (words, text, code, file, note) in cases {
        let want = nothing_written(code, note);
        expect(&rt, rt.alloc(), keys, &plain(words, text), file, want)?;
    }
    Ok(())
}
