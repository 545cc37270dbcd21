//! Texts that are not in TriG (RDF 1.1 TriG, section 4.5), with the line that is refused.
//
// `rapper` of raptor 2.0.15 refuses them in these lines, but for some: it has no `GRAPH`, reads `[ ] .` and the escape
// of a surrogate, counts a string that goes over lines to its last line and a CR by itself as none, and always has a
// base. There the standard was taken, and where it is silent, that a token stands in the line of its first byte.
use crate::trial::expect_refusal;
use std::hash::RandomState;
use std::test::Fail;

#[test]
fn what_is_no_block_is_refused(rt: HostRuntime) -> Result<(), Fail> {
    let keys = RandomState::new(&rt)?;
    let cases = [
        ("<e:s>", "rdfc: f:1: not TriG\n"),
        ("\n\"x\" { }", "rdfc: f:2: not TriG\n"),
        ("GRAPH { <e:s> <e:p> <e:o> }", "rdfc: f:1: not TriG\n"),
        ("GRAPH <e:g>\n<e:s> <e:p> <e:o> .", "rdfc: f:2: not TriG\n"),
        ("GRAPH ( ) { }", "rdfc: f:1: not TriG\n"),
        ("<e:g> { }\n.", "rdfc: f:2: not TriG\n"),
        ("{\n{ } }", "rdfc: f:2: not TriG\n"),
        ("{ <e:s> <e:p> <e:o> .\n. }", "rdfc: f:2: not TriG\n"),
        ("{ <e:s> <e:p> <e:o>\n", "rdfc: f:2: not TriG\n"),
        ("\r}", "rdfc: f:2: not TriG\n"),
        ("( <e:i> ) .", "rdfc: f:1: not TriG\n"),
        ("( )\n{ }", "rdfc: f:2: not TriG\n"),
        ("[ <e:p> <e:o> ]\n{ }", "rdfc: f:2: not TriG\n"),
        ("{ GRAPH <e:g> { } }", "rdfc: f:1: not TriG\n"),
        ("{ @prefix e: <e:> . }", "rdfc: f:1: not TriG\n"),
    ];
    for (text, note) in cases {
        expect_refusal(&rt, rt.alloc(), keys, text, note)?;
    }
    Ok(())
}

#[test]
fn what_is_no_triple_is_refused(rt: HostRuntime) -> Result<(), Fail> {
    let keys = RandomState::new(&rt)?;
    let cases = [
        ("<e:s> <e:p> <e:o>\n\n", "rdfc: f:3: not TriG\n"),
        ("<e:s>\n; <e:p> <e:o> .", "rdfc: f:2: not TriG\n"),
        ("<e:s> <e:p>\n.", "rdfc: f:2: not TriG\n"),
        ("<e:s> <e:p> <e:o> ,\n.", "rdfc: f:2: not TriG\n"),
        ("<e:s>\n_:p <e:o> .", "rdfc: f:2: not TriG\n"),
        ("<e:s> \"p\" <e:o> .", "rdfc: f:1: not TriG\n"),
        ("\"s\" <e:p> <e:o> .", "rdfc: f:1: not TriG\n"),
        ("a a a .", "rdfc: f:1: not TriG\n"),
        ("<e:s> A <e:o> .", "rdfc: f:1: not TriG\n"),
        ("[ ] .", "rdfc: f:1: not TriG\n"),
        ("<e:s> <e:p> [ <e:q>\n] .", "rdfc: f:2: not TriG\n"),
        ("<e:s> <e:p> ( <e:q>\n.", "rdfc: f:2: not TriG\n"),
        ("<e:s> <e:p> <e:o> ] .", "rdfc: f:1: not TriG\n"),
        ("<e:s> [ <e:p> <e:o> ] <e:o> .", "rdfc: f:1: not TriG\n"),
    ];
    for (text, note) in cases {
        expect_refusal(&rt, rt.alloc(), keys, text, note)?;
    }
    Ok(())
}

#[test]
fn what_is_no_directive_is_refused(rt: HostRuntime) -> Result<(), Fail> {
    let keys = RandomState::new(&rt)?;
    let cases = [
        ("@prefix e: <e:>\ne:s e:p e:o .", "rdfc: f:2: not TriG\n"),
        ("PREFIX e: <e:>\n.", "rdfc: f:2: not TriG\n"),
        ("@PREFIX e: <e:> .", "rdfc: f:1: not TriG\n"),
        ("@prefix e <e:> .", "rdfc: f:1: not TriG\n"),
        ("@prefix e:s <e:> .", "rdfc: f:1: not TriG\n"),
        ("@base <e:b>", "rdfc: f:1: not TriG\n"),
        ("BASE <e:>\n.", "rdfc: f:2: not TriG\n"),
        ("BASE e: <e:>", "rdfc: f:1: not TriG\n"),
    ];
    for (text, note) in cases {
        expect_refusal(&rt, rt.alloc(), keys, text, note)?;
    }
    Ok(())
}

#[test]
fn what_is_no_literal_is_refused(rt: HostRuntime) -> Result<(), Fail> {
    let keys = RandomState::new(&rt)?;
    let cases = [
        ("<e:s> <e:p> \"x\"@ .", "rdfc: f:1: not TriG\n"),
        ("<e:s> <e:p> \"x\"^^\"y\" .", "rdfc: f:1: not TriG\n"),
        ("<e:s> <e:p> \"x\ny\" .", "rdfc: f:1: not TriG\n"),
        ("<e:s> <e:p> \"\\a\" .", "rdfc: f:1: not TriG\n"),
        ("<e:s> <e:p> \"\\uD800\" .", "rdfc: f:1: not TriG\n"),
        ("<e:s> <e:p> 1\n2 .", "rdfc: f:2: not TriG\n"),
        ("<e:s> <e:p> --1 .", "rdfc: f:1: not TriG\n"),
        ("<e:s> <e:p> 1e .", "rdfc: f:1: not TriG\n"),
        ("<e:s> <e:p> TRUE .", "rdfc: f:1: not TriG\n"),
        ("<e:s> <e:p> true@en .", "rdfc: f:1: not TriG\n"),
        (
            "<e:s> <e:p>\n\"\"\"a\nb\"\"\"\n\"\"\"c\n\nd\"\"\" .",
            "rdfc: f:4: not TriG\n",
        ),
        ("<e:s> <e:p>\r\n\"\"\"a\r\r\nb\n", "rdfc: f:2: not TriG\n"),
        (
            "<e:s> <e:p> \"\"\"a\rb\r\nc\nd\"\"\"\n<e:x> .",
            "rdfc: f:5: not TriG\n",
        ),
    ];
    for (text, note) in cases {
        expect_refusal(&rt, rt.alloc(), keys, text, note)?;
    }
    Ok(())
}

#[test]
fn what_is_no_name_is_refused(rt: HostRuntime) -> Result<(), Fail> {
    let keys = RandomState::new(&rt)?;
    let cases = [
        ("<e:s> <e:p> <e: o> .", "rdfc: f:1: not TriG\n"),
        ("<e:s> <e:p> <e:\\u0020> .", "rdfc: f:1: not TriG\n"),
        (
            "PREFIX e: <e:> e:s e:p e:o.e:s e:p e:r.",
            "rdfc: f:1: not TriG\n",
        ),
        ("PREFIX -e: <e:>", "rdfc: f:1: not TriG\n"),
        ("PREFIX e: <e:> e:s e:p e:%4 .", "rdfc: f:1: not TriG\n"),
        ("PREFIX e: <e:> e:s e:p e:\\x .", "rdfc: f:1: not TriG\n"),
        ("_:-a <e:p> <e:o> .", "rdfc: f:1: not TriG\n"),
        ("_: <e:p> <e:o> .", "rdfc: f:1: not TriG\n"),
        ("PREFIX e.: <e:>", "rdfc: f:1: not TriG\n"),
    ];
    for (text, note) in cases {
        expect_refusal(&rt, rt.alloc(), keys, text, note)?;
    }
    Ok(())
}

#[test]
fn a_use_without_a_definition_is_refused(rt: HostRuntime) -> Result<(), Fail> {
    let keys = RandomState::new(&rt)?;
    let cases = [
        (
            "PREFIX e: <e:>\ne:s e:p\nq:x .",
            "rdfc: f:3: unknown prefix\n",
        ),
        (
            "e:s e:p e:o .\nPREFIX e: <e:>",
            "rdfc: f:1: unknown prefix\n",
        ),
        (
            "PREFIX e: <e:> e:s e:p \"x\"^^\n:t .",
            "rdfc: f:2: unknown prefix\n",
        ),
        ("<x> <y> <z> .", "rdfc: f:1: relative IRI without a base\n"),
        ("PREFIX e: <x>", "rdfc: f:1: relative IRI without a base\n"),
        (
            "BASE <x>\nBASE <e:>",
            "rdfc: f:1: relative IRI without a base\n",
        ),
        (
            "<e:s> <e:p>\n<> .",
            "rdfc: f:2: relative IRI without a base\n",
        ),
        ("<e:s> q:p <o> .", "rdfc: f:1: unknown prefix\n"),
        (
            "<s> q:p <e:o> .",
            "rdfc: f:1: relative IRI without a base\n",
        ),
        ("q:s <e:p> <e:o>\n", "rdfc: f:2: not TriG\n"),
    ];
    for (text, note) in cases {
        expect_refusal(&rt, rt.alloc(), keys, text, note)?;
    }
    Ok(())
}
