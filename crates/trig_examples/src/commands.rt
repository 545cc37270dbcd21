//! What the commands write of files in TriG, and what their options may be.
use crate::trial::expect;
use run_trials::{Trial, done, nothing_written, plain};
use std::hash::RandomState;
use std::test::Fail;

// Seven quads in one graph, with a list of two items, of which one is anonymous.
const LIST: &str = "@prefix ex: <http://e/> .
BASE <http://e/dir/>
ex:g { <x> a ex:C ; ex:list ( 1 [] ) ; ex:ok true . }
";

// The same in the default graph.
const PLAIN_LIST: &str = "@prefix ex: <http://e/> .
BASE <http://e/dir/>
<x> a ex:C ; ex:list ( 1 [] ) ; ex:ok true .
";

const LIST_FORM: &str = "<http://e/dir/x> <http://e/list> _:c14n2 <http://e/g> .
<http://e/dir/x> <http://e/ok> \"true\"^^<http://www.w3.org/2001/XMLSchema#boolean> <http://e/g> .
<http://e/dir/x> <http://www.w3.org/1999/02/22-rdf-syntax-ns#type> <http://e/C> <http://e/g> .
_:c14n0 <http://www.w3.org/1999/02/22-rdf-syntax-ns#first> _:c14n1 <http://e/g> .
_:c14n0 <http://www.w3.org/1999/02/22-rdf-syntax-ns#rest> <http://www.w3.org/1999/02/22-rdf-syntax-ns#nil> <http://e/g> .
_:c14n2 <http://www.w3.org/1999/02/22-rdf-syntax-ns#first> \"1\"^^<http://www.w3.org/2001/XMLSchema#integer> <http://e/g> .
_:c14n2 <http://www.w3.org/1999/02/22-rdf-syntax-ns#rest> _:c14n0 <http://e/g> .
";

const LEAN_LIST: &str = "<http://e/dir/x> <http://e/list> _:e0 .
<http://e/dir/x> <http://e/ok> \"true\"^^<http://www.w3.org/2001/XMLSchema#boolean> .
<http://e/dir/x> <http://www.w3.org/1999/02/22-rdf-syntax-ns#type> <http://e/C> .
_:e0 <http://www.w3.org/1999/02/22-rdf-syntax-ns#first> \"1\"^^<http://www.w3.org/2001/XMLSchema#integer> .
_:e0 <http://www.w3.org/1999/02/22-rdf-syntax-ns#rest> _:e1 .
_:e1 <http://www.w3.org/1999/02/22-rdf-syntax-ns#first> _:e2 .
_:e1 <http://www.w3.org/1999/02/22-rdf-syntax-ns#rest> <http://www.w3.org/1999/02/22-rdf-syntax-ns#nil> .
";

// Anonymous blank nodes within one another, and one with a label.
const NESTED: &str = "[ <e:p> [ <e:q> _:b ] ] <e:r> [] , ( <e:x> ) .";

// The SHA-256 of the canonical form of the list.
const LIST_HASH: &str = "9f7fb7e8f5705848fa677961f830940b450fd3e1fd8f62270e4e7187de87c7ed\n";

#[test]
fn each_command_reads_trig(rt: HostRuntime) -> Result<(), Fail> {
    let keys = RandomState::new(&rt)?;
    let cases: [(&[&str], &str, &str); 12] = [
        (&["canon", "--trig", "f"], LIST, LIST_FORM),
        (&["hash", "--trig", "f"], LIST, LIST_HASH),
        (
            &["map", "--trig", "f"],
            LIST,
            "[1] _:c14n0\n[2] _:c14n1\n[0] _:c14n2\n",
        ),
        // Nodes are numbered as they are opened, and the cell of an item before the item.
        (
            &["map", "--trig", "f"],
            NESTED,
            "_:b _:c14n0\n[0] _:c14n1\n[1] _:c14n2\n[3] _:c14n3\n[2] _:c14n4\n",
        ),
        (
            &["ties", "--trig", "f"],
            LIST,
            "units 0\nties 0\njoined 0\n",
        ),
        (&["lean", "--trig", "f"], PLAIN_LIST, LEAN_LIST),
        (
            &["lean", "--map", "--trig", "f"],
            "PREFIX : <http://e/> :a :p _:x . [] :p _:x .",
            "_:e0 _:e0\n_:e1 <http://e/a>\n",
        ),
        (&["canon", "--trig", "f"], "", ""),
        (&["canon", "--trig", "f"], "_:g { }", ""),
        (
            &["canon", "--trig", "--base", "http://e/d/f", "f"],
            "<x> <y> <z> .",
            "<http://e/d/x> <http://e/d/y> <http://e/d/z> .\n",
        ),
        (
            &[
                "canon",
                "--base",
                "http://e/d/f",
                "--limit",
                "1",
                "--trig",
                "f",
            ],
            "BASE <g/> <> <?y> <#z> .",
            "<http://e/d/g/> <http://e/d/g/?y> <http://e/d/g/#z> .\n",
        ),
        (
            &["compare", "--base", "e:", "--trig", "f", "g"],
            "<x> <p> [] .",
            "[0] _:y\n",
        ),
    ];
    for (words, text, out) in cases {
        let trial = Trial {
            other: "PREFIX : <e:> :x :p _:y .",
            ..plain(words, text)
        };
        expect(&rt, rt.alloc(), keys, &trial, done(out))?;
    }
    Ok(())
}

#[test]
fn a_file_in_trig_is_refused_by_its_name(rt: HostRuntime) -> Result<(), Fail> {
    let keys = RandomState::new(&rt)?;
    let cases: [(&[&str], &str, u8, &str); 9] = [
        (
            &["canon", "--trig", "f"],
            "@prefix ex: <http://e/> .\nex:a ex:p q:x .",
            4,
            "rdfc: f:2: unknown prefix\n",
        ),
        (
            &["canon", "--trig", "f"],
            "@prefix ex: <http://e/> .\nGRAPH { ex:a ex:p ex:b }",
            4,
            "rdfc: f:2: not TriG\n",
        ),
        (
            &["canon", "--trig", "f"],
            "@prefix ex: <http://e/> .\nex:a\nex:b\n.\n",
            4,
            "rdfc: f:4: not TriG\n",
        ),
        (
            &["canon", "--trig", "f"],
            "@prefix ex: <http://e/> .\nex:a ex:p ex:b",
            4,
            "rdfc: f:2: not TriG\n",
        ),
        (
            &["canon", "--trig", "f"],
            "<x> <y> <z> .",
            4,
            "rdfc: f:1: relative IRI without a base\n",
        ),
        (
            &["compare", "--trig", "f", "g"],
            "<e:s> <e:p> <e:o> .",
            4,
            "rdfc: g:3: not TriG\n",
        ),
        (
            &["compare", "--trig", "g", "f"],
            "<x> <y> <z> .",
            4,
            "rdfc: g:3: not TriG\n",
        ),
        (
            &["lean", "--trig", "f"],
            "<e:g> { <e:s> <e:p> <e:o> }",
            4,
            "rdfc: f: a quad has a graph name\n",
        ),
        (
            &["canon", "f"],
            "{ <e:s> <e:p> <e:o> }",
            4,
            "rdfc: f:1: not an N-Quads line\n",
        ),
    ];
    for (words, text, code, note) in cases {
        let trial = Trial {
            other: "<e:s>\n\n",
            ..plain(words, text)
        };
        expect(&rt, rt.alloc(), keys, &trial, nothing_written(code, note))?;
    }
    Ok(())
}

#[test]
fn a_base_is_an_iri_and_comes_with_trig(rt: HostRuntime) -> Result<(), Fail> {
    let keys = RandomState::new(&rt)?;
    let cases: [&[&str]; 14] = [
        &["canon", "--base", "http://e/", "f"],
        &["canon", "--trig", "--trig", "f"],
        &["canon", "--trig", "--base", "e:", "--base", "e:", "f"],
        &["canon", "--trig", "--base", "f"],
        &["canon", "--trig", "--base"],
        &["canon", "--trig", "--base", "", "f"],
        &["canon", "--trig", "--base", "a/b", "f"],
        &["canon", "--trig", "--base", "1a:", "f"],
        &["canon", "--trig", "--base", "e: ", "f"],
        &["canon", "--trig", "--base", "e:<", "f"],
        &["canon", "--base", "--trig", "f"],
        &["canon", "--limit", "--trig", "f"],
        &["load", "--trig", "1"],
        &["load", "--trig", "--base", "e:", "1"],
    ];
    for words in cases {
        let want = nothing_written(2, "rdfc: the words are not a command\n");
        expect(&rt, rt.alloc(), keys, &plain(words, ""), want)?;
    }
    Ok(())
}
