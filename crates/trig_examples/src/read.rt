//! Sentences of each production of TriG (RDF 1.1 TriG, section 4.5), and their canonical forms.
//
// The quads are those that `rapper` of raptor 2.0.15 reads, and the labels follow from their first-degree hashes. Its
// grammar is older: for `GRAPH`, for a blank node as the name of a graph, and for `@prefix` and `@base` as language
// tags, which it has not, the standard was taken.
use crate::trial::expect_form;
use std::hash::RandomState;
use std::test::Fail;

#[test]
fn graphs_and_triples_are_read(rt: HostRuntime) -> Result<(), Fail> {
    let keys = RandomState::new(&rt)?;
    let cases = [
        ("", ""),
        ("# nothing\n@prefix e: <e:> .\n", ""),
        ("<e:s> <e:p> <e:o> .", "<e:s> <e:p> <e:o> .\n"),
        ("{ <e:s> <e:p> <e:o> }", "<e:s> <e:p> <e:o> .\n"),
        (
            "GRAPH <e:g> { <e:s> <e:p> <e:o> }",
            "<e:s> <e:p> <e:o> <e:g> .\n",
        ),
        (
            "graph <e:g> { <e:s> <e:p> <e:o> } GraPH _:g { }",
            "<e:s> <e:p> <e:o> <e:g> .\n",
        ),
        ("<e:g> { <e:s> <e:p> <e:o> }", "<e:s> <e:p> <e:o> <e:g> .\n"),
        ("_:g { <e:s> <e:p> <e:o> }", "<e:s> <e:p> <e:o> _:c14n0 .\n"),
        ("[ ] { <e:s> <e:p> <e:o> }", "<e:s> <e:p> <e:o> _:c14n0 .\n"),
        (
            "GRAPH [] { <e:s> <e:p> <e:o> }",
            "<e:s> <e:p> <e:o> _:c14n0 .\n",
        ),
        ("<e:g> { } _:g { } { }", ""),
        (
            "<e:g> { <e:s> <e:p> <e:o> } <e:s> <e:p> <e:o> .",
            "<e:s> <e:p> <e:o> .\n<e:s> <e:p> <e:o> <e:g> .\n",
        ),
        (
            "<e:g> { <e:s> <e:p> <e:o> } { <e:s> <e:p> <e:o> . }",
            "<e:s> <e:p> <e:o> .\n<e:s> <e:p> <e:o> <e:g> .\n",
        ),
        (
            "<e:g> { <e:s> <e:p> <e:o> . <e:t> <e:p> <e:o> . }",
            "<e:s> <e:p> <e:o> <e:g> .\n<e:t> <e:p> <e:o> <e:g> .\n",
        ),
        (
            "{ <e:s> <e:p> <e:o> . <e:t> <e:p> <e:o> }",
            "<e:s> <e:p> <e:o> .\n<e:t> <e:p> <e:o> .\n",
        ),
        (
            "<e:g> { _:a <e:p> <e:o> } <e:h> { _:a <e:p> <e:o> }",
            "_:c14n0 <e:p> <e:o> <e:g> .\n_:c14n0 <e:p> <e:o> <e:h> .\n",
        ),
    ];
    for (text, form) in cases {
        expect_form(&rt, rt.alloc(), keys, text, form)?;
    }
    Ok(())
}

#[test]
fn triples_and_collections_are_read(rt: HostRuntime) -> Result<(), Fail> {
    let keys = RandomState::new(&rt)?;
    let cases = [
        (
            "<e:s> <e:p> <e:o> , <e:r> ; <e:q> <e:o> .",
            "<e:s> <e:p> <e:o> .\n<e:s> <e:p> <e:r> .\n<e:s> <e:q> <e:o> .\n",
        ),
        (
            "<e:s> <e:p> <e:o> ; ; <e:q> <e:o> ; .",
            "<e:s> <e:p> <e:o> .\n<e:s> <e:q> <e:o> .\n",
        ),
        (
            "<e:s> a <e:C> .",
            "<e:s> <http://www.w3.org/1999/02/22-rdf-syntax-ns#type> <e:C> .\n",
        ),
        ("{ <e:s> <e:p> <e:o> ; }", "<e:s> <e:p> <e:o> .\n"),
        ("_:a <e:p> _:a .", "_:c14n0 <e:p> _:c14n0 .\n"),
        ("[] <e:p> <e:o> .", "_:c14n0 <e:p> <e:o> .\n"),
        ("[ <e:p> <e:o> ] .", "_:c14n0 <e:p> <e:o> .\n"),
        (
            "[ <e:p> <e:o> ] <e:q> <e:r> .",
            "_:c14n0 <e:p> <e:o> .\n_:c14n0 <e:q> <e:r> .\n",
        ),
        ("{ [ <e:p> <e:o> ] }", "_:c14n0 <e:p> <e:o> .\n"),
        (
            "<e:s> <e:p> [ <e:q> <e:r> , <e:o> ; ] .",
            "<e:s> <e:p> _:c14n0 .\n_:c14n0 <e:q> <e:o> .\n_:c14n0 <e:q> <e:r> .\n",
        ),
        (
            "<e:s> <e:p> [ # a comment ]\n] .",
            "<e:s> <e:p> _:c14n0 .\n",
        ),
        (
            "<e:s> <e:p> ( ) .",
            "<e:s> <e:p> <http://www.w3.org/1999/02/22-rdf-syntax-ns#nil> .\n",
        ),
        (
            "( ) <e:p> <e:o> .",
            "<http://www.w3.org/1999/02/22-rdf-syntax-ns#nil> <e:p> <e:o> .\n",
        ),
        (
            "<e:s> <e:p> ( <e:a> <e:b> ) .",
            "<e:s> <e:p> _:c14n0 .\n_:c14n0 <http://www.w3.org/1999/02/22-rdf-syntax-ns#first> <e:a> .\n_:c14n0 <http://www.w3.org/1999/02/22-rdf-syntax-ns#rest> _:c14n1 .\n_:c14n1 <http://www.w3.org/1999/02/22-rdf-syntax-ns#first> <e:b> .\n_:c14n1 <http://www.w3.org/1999/02/22-rdf-syntax-ns#rest> <http://www.w3.org/1999/02/22-rdf-syntax-ns#nil> .\n",
        ),
        (
            "( 1 ) <e:p> <e:o> .",
            "_:c14n0 <e:p> <e:o> .\n_:c14n0 <http://www.w3.org/1999/02/22-rdf-syntax-ns#first> \"1\"^^<http://www.w3.org/2001/XMLSchema#integer> .\n_:c14n0 <http://www.w3.org/1999/02/22-rdf-syntax-ns#rest> <http://www.w3.org/1999/02/22-rdf-syntax-ns#nil> .\n",
        ),
        (
            "<e:g> { <e:s> <e:p> ( ( ) \"x\" ) }",
            "<e:s> <e:p> _:c14n1 <e:g> .\n_:c14n0 <http://www.w3.org/1999/02/22-rdf-syntax-ns#first> \"x\" <e:g> .\n_:c14n0 <http://www.w3.org/1999/02/22-rdf-syntax-ns#rest> <http://www.w3.org/1999/02/22-rdf-syntax-ns#nil> <e:g> .\n_:c14n1 <http://www.w3.org/1999/02/22-rdf-syntax-ns#first> <http://www.w3.org/1999/02/22-rdf-syntax-ns#nil> <e:g> .\n_:c14n1 <http://www.w3.org/1999/02/22-rdf-syntax-ns#rest> _:c14n0 <e:g> .\n",
        ),
    ];
    for (text, form) in cases {
        expect_form(&rt, rt.alloc(), keys, text, form)?;
    }
    Ok(())
}

#[test]
fn prefixes_and_bases_are_set(rt: HostRuntime) -> Result<(), Fail> {
    let keys = RandomState::new(&rt)?;
    let cases = [
        ("@prefix e: <e:> . e:s e:p e:o .", "<e:s> <e:p> <e:o> .\n"),
        ("PREFIX e: <e:> e:s e:p e:o .", "<e:s> <e:p> <e:o> .\n"),
        ("prefix : <e:> :s :p :o .", "<e:s> <e:p> <e:o> .\n"),
        (
            "@prefix e: <e:a/> . e:s e:p e:o . @prefix e: <e:b/> . e:s e:p e:o .",
            "<e:a/s> <e:a/p> <e:a/o> .\n<e:b/s> <e:b/p> <e:b/o> .\n",
        ),
        (
            "@base <http://e/a/> . <x> <#p> <//h/o> . @base <b/> . <x> <?q> <> .",
            "<http://e/a/b/x> <http://e/a/b/?q> <http://e/a/b/> .\n<http://e/a/x> <http://e/a/#p> <http://h/o> .\n",
        ),
        (
            "BASE <http://e/a/b> <../x> <./p/.> </o> .",
            "<http://e/x> <http://e/a/p/> <http://e/o> .\n",
        ),
        (
            "BASE <http://e/> PREFIX p: <d#> p:s p:p p: .",
            "<http://e/d#s> <http://e/d#p> <http://e/d#> .\n",
        ),
        (
            "@prefix e: <e:> . { e:s e:p e:o } @prefix e: <f:> . e:s e:p e:o .",
            "<e:s> <e:p> <e:o> .\n<f:s> <f:p> <f:o> .\n",
        ),
        (
            "PREFIX e: <e:> e:s a e:a , e:true , e:GRAPH .",
            "<e:s> <http://www.w3.org/1999/02/22-rdf-syntax-ns#type> <e:GRAPH> .\n<e:s> <http://www.w3.org/1999/02/22-rdf-syntax-ns#type> <e:a> .\n<e:s> <http://www.w3.org/1999/02/22-rdf-syntax-ns#type> <e:true> .\n",
        ),
    ];
    for (text, form) in cases {
        expect_form(&rt, rt.alloc(), keys, text, form)?;
    }
    Ok(())
}

#[test]
fn literals_are_read(rt: HostRuntime) -> Result<(), Fail> {
    let keys = RandomState::new(&rt)?;
    let cases = [
        (
            "<e:s> <e:p> \"x\" , \"x\"@en-GB , \"x\"^^<e:t> .",
            "<e:s> <e:p> \"x\" .\n<e:s> <e:p> \"x\"@en-GB .\n<e:s> <e:p> \"x\"^^<e:t> .\n",
        ),
        (
            "PREFIX x: <http://www.w3.org/2001/XMLSchema#> <e:s> <e:p> \"x\"^^x:string .",
            "<e:s> <e:p> \"x\" .\n",
        ),
        (
            "<e:s> <e:p> \"x\"@prefix , \"y\" @base .",
            "<e:s> <e:p> \"x\"@prefix .\n<e:s> <e:p> \"y\"@base .\n",
        ),
        (
            "<e:s> <e:p> 0 , -05 , +7 .",
            "<e:s> <e:p> \"+7\"^^<http://www.w3.org/2001/XMLSchema#integer> .\n<e:s> <e:p> \"-05\"^^<http://www.w3.org/2001/XMLSchema#integer> .\n<e:s> <e:p> \"0\"^^<http://www.w3.org/2001/XMLSchema#integer> .\n",
        ),
        (
            "<e:s> <e:p> 4.2 , -.5 , +0.0 .",
            "<e:s> <e:p> \"+0.0\"^^<http://www.w3.org/2001/XMLSchema#decimal> .\n<e:s> <e:p> \"-.5\"^^<http://www.w3.org/2001/XMLSchema#decimal> .\n<e:s> <e:p> \"4.2\"^^<http://www.w3.org/2001/XMLSchema#decimal> .\n",
        ),
        (
            "<e:s> <e:p> 1e5 , 1.E-3 , -.5e+0 .",
            "<e:s> <e:p> \"-.5e+0\"^^<http://www.w3.org/2001/XMLSchema#double> .\n<e:s> <e:p> \"1.E-3\"^^<http://www.w3.org/2001/XMLSchema#double> .\n<e:s> <e:p> \"1e5\"^^<http://www.w3.org/2001/XMLSchema#double> .\n",
        ),
        (
            "<e:s> <e:p> 1.",
            "<e:s> <e:p> \"1\"^^<http://www.w3.org/2001/XMLSchema#integer> .\n",
        ),
        (
            "<e:s> <e:p> true , false .",
            "<e:s> <e:p> \"false\"^^<http://www.w3.org/2001/XMLSchema#boolean> .\n<e:s> <e:p> \"true\"^^<http://www.w3.org/2001/XMLSchema#boolean> .\n",
        ),
        (
            "<e:s> <e:p> 'x' , '\"' , '' .",
            "<e:s> <e:p> \"\" .\n<e:s> <e:p> \"\\\"\" .\n<e:s> <e:p> \"x\" .\n",
        ),
        (
            "<e:s> <e:p> \"\"\"a\nb\"\"c\"\"\" .",
            "<e:s> <e:p> \"a\\nb\\\"\\\"c\" .\n",
        ),
        (
            "<e:s> <e:p> '''a\r\nb'c\"''' .",
            "<e:s> <e:p> \"a\\r\\nb'c\\\"\" .\n",
        ),
        (
            "<e:s> <e:p> \"\"\"\"\"\" , ''''x''' .",
            "<e:s> <e:p> \"\" .\n<e:s> <e:p> \"'x\" .\n",
        ),
        (
            "<e:s> <e:p> \"\\t\\b\\n\\r\\f\\\"\\'\\\\\" .",
            "<e:s> <e:p> \"\\t\\b\\n\\r\\f\\\"'\\\\\" .\n",
        ),
        (
            "<e:s> <e:p> \"\\u00E9\\U0001F600\" .",
            "<e:s> <e:p> \"é😀\" .\n",
        ),
        (
            "<e:\\u0073> <e:\\U00000070> <e:é> .",
            "<e:s> <e:p> <e:é> .\n",
        ),
    ];
    for (text, form) in cases {
        expect_form(&rt, rt.alloc(), keys, text, form)?;
    }
    Ok(())
}

#[test]
fn names_and_labels_are_read(rt: HostRuntime) -> Result<(), Fail> {
    let keys = RandomState::new(&rt)?;
    let cases = [
        (
            "PREFIX é.b: <e:> é.b:s é.b:p é.b:o .",
            "<e:s> <e:p> <e:o> .\n",
        ),
        (
            "PREFIX e: <e:> e:s.t e:p:q e:0 .",
            "<e:s.t> <e:p:q> <e:0> .\n",
        ),
        (
            "PREFIX e: <e:> e:%41 e:\\%\\~ e:a\\-b .",
            "<e:%41> <e:%~> <e:a-b> .\n",
        ),
        (
            "PREFIX e: <e:> e:s e:p e:o.\ne:s e:p e:r.",
            "<e:s> <e:p> <e:o> .\n<e:s> <e:p> <e:r> .\n",
        ),
        ("_:a.b <e:p> _:a.b.", "_:c14n0 <e:p> _:c14n0 .\n"),
        ("_:0 <e:p> _:é-1 .", "_:c14n1 <e:p> _:c14n0 .\n"),
    ];
    for (text, form) in cases {
        expect_form(&rt, rt.alloc(), keys, text, form)?;
    }
    Ok(())
}
