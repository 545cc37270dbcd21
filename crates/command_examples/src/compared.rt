//! What `compare` says of two files.
use crate::ending::expect;
use run_trials::documents::{PAIR, RING, TURNED, TWO_RINGS};
use run_trials::{Trial, done, nothing_written, plain};
use std::hash::RandomState;
use std::test::Fail;

const OTHER_PAIR: &str = "_:x <e:p> _:y .
_:y <e:p> _:x .
";

// A person with a name and a town.
const PERSON: &str = "_:ada <e:name> \"Ada\" .
_:ada <e:lives> _:town .
_:town <e:name> \"Bath\" .
";

// The same with other labels, the lines turned round.
const TURNED_PERSON: &str = "_:b0 <e:name> \"Bath\" .
_:b1 <e:lives> _:b0 .
_:b1 <e:name> \"Ada\" .
";

// The same in another town.
const MOVED_PERSON: &str = "_:b0 <e:name> \"York\" .
_:b1 <e:lives> _:b0 .
_:b1 <e:name> \"Ada\" .
";

// A membership credential, and the same with other labels and its lines turned round.
const CREDENTIAL: &str =
    "<urn:uuid:c1> <http://www.w3.org/1999/02/22-rdf-syntax-ns#type> <https://www.w3.org/2018/credentials#VerifiableCredential> .
<urn:uuid:c1> <http://www.w3.org/1999/02/22-rdf-syntax-ns#type> <http://e/vc#MembershipCredential> .
<urn:uuid:c1> <https://www.w3.org/2018/credentials#issuer> <http://e/issuers/7> .
<urn:uuid:c1> <http://e/vc#validFrom> \"2024-05-21T00:00:00Z\"^^<http://www.w3.org/2001/XMLSchema#dateTime> .
<urn:uuid:c1> <http://e/vc#validUntil> \"2026-05-21T00:00:00Z\"^^<http://www.w3.org/2001/XMLSchema#dateTime> .
<urn:uuid:c1> <http://e/vc#title> \"Membership\"@en .
<urn:uuid:c1> <http://e/vc#title> \"Mitgliedschaft\"@de .
<urn:uuid:c1> <https://www.w3.org/2018/credentials#credentialSubject> _:subject .
<urn:uuid:c1> <http://e/vc#proof> _:proofGraph .
_:subject <http://www.w3.org/1999/02/22-rdf-syntax-ns#type> <http://e/vc#Member> .
_:subject <http://e/vc#name> \"Ada Example\" .
_:subject <http://e/vc#number> \"12\"^^<http://www.w3.org/2001/XMLSchema#integer> .
_:subject <http://e/vc#level> \"gold\" .
_:subject <http://e/vc#memberOf> <http://e/clubs/3> .
<http://e/issuers/7> <http://e/vc#name> \"Example Office\" .
<http://e/issuers/7> <http://e/vc#page> <http://e/office> .
<http://e/clubs/3> <http://e/vc#name> \"Club Three\" .
_:proof <http://www.w3.org/1999/02/22-rdf-syntax-ns#type> <http://e/vc#Proof> _:proofGraph .
_:proof <http://e/vc#suite> \"sample-suite\" _:proofGraph .
_:proof <http://e/vc#created> \"2024-05-21T08:00:00Z\"^^<http://www.w3.org/2001/XMLSchema#dateTime> _:proofGraph .
_:proof <http://e/vc#purpose> <http://e/vc#assertion> _:proofGraph .
_:proof <http://e/vc#method> <http://e/issuers/7#key-1> _:proofGraph .
_:proof <http://e/vc#domain> \"e\" _:proofGraph .
_:proof <http://e/vc#value> \"zSample\" _:proofGraph .
";

const TURNED_CREDENTIAL: &str = "_:b1 <http://e/vc#value> \"zSample\" _:b0 .
_:b1 <http://e/vc#domain> \"e\" _:b0 .
_:b1 <http://e/vc#method> <http://e/issuers/7#key-1> _:b0 .
_:b1 <http://e/vc#purpose> <http://e/vc#assertion> _:b0 .
_:b1 <http://e/vc#created> \"2024-05-21T08:00:00Z\"^^<http://www.w3.org/2001/XMLSchema#dateTime> _:b0 .
_:b1 <http://e/vc#suite> \"sample-suite\" _:b0 .
_:b1 <http://www.w3.org/1999/02/22-rdf-syntax-ns#type> <http://e/vc#Proof> _:b0 .
<http://e/clubs/3> <http://e/vc#name> \"Club Three\" .
<http://e/issuers/7> <http://e/vc#page> <http://e/office> .
<http://e/issuers/7> <http://e/vc#name> \"Example Office\" .
_:b2 <http://e/vc#memberOf> <http://e/clubs/3> .
_:b2 <http://e/vc#level> \"gold\" .
_:b2 <http://e/vc#number> \"12\"^^<http://www.w3.org/2001/XMLSchema#integer> .
_:b2 <http://e/vc#name> \"Ada Example\" .
_:b2 <http://www.w3.org/1999/02/22-rdf-syntax-ns#type> <http://e/vc#Member> .
<urn:uuid:c1> <http://e/vc#proof> _:b0 .
<urn:uuid:c1> <https://www.w3.org/2018/credentials#credentialSubject> _:b2 .
<urn:uuid:c1> <http://e/vc#title> \"Mitgliedschaft\"@de .
<urn:uuid:c1> <http://e/vc#title> \"Membership\"@en .
<urn:uuid:c1> <http://e/vc#validUntil> \"2026-05-21T00:00:00Z\"^^<http://www.w3.org/2001/XMLSchema#dateTime> .
<urn:uuid:c1> <http://e/vc#validFrom> \"2024-05-21T00:00:00Z\"^^<http://www.w3.org/2001/XMLSchema#dateTime> .
<urn:uuid:c1> <https://www.w3.org/2018/credentials#issuer> <http://e/issuers/7> .
<urn:uuid:c1> <http://www.w3.org/1999/02/22-rdf-syntax-ns#type> <http://e/vc#MembershipCredential> .
<urn:uuid:c1> <http://www.w3.org/1999/02/22-rdf-syntax-ns#type> <https://www.w3.org/2018/credentials#VerifiableCredential> .
";

// Four quads with a tie that is not joined, and a literal.
const FOUR_AND_ONE: &str = "_:s0 <e:p> _:o0 _:g0 .
_:s0 <e:p> _:o1 _:g1 .
_:s1 <e:p> _:o0 _:g1 .
_:s1 <e:p> _:o1 _:g0 .
<e:x> <e:p> \"1\" .
";

const FOUR_AND_TWO: &str = "_:s0 <e:p> _:o0 _:g0 .
_:s0 <e:p> _:o1 _:g1 .
_:s1 <e:p> _:o0 _:g1 .
_:s1 <e:p> _:o1 _:g0 .
<e:x> <e:p> \"2\" .
";

// The second line has no object.
const FAULTY: &str = "<e:s> <e:p> <e:o> .
<e:s> <e:p> .
";

fn comparison<'a>(text: &'a str, other: &'a str) -> Trial<'a> {
    Trial {
        other,
        ..plain(&["compare", "f", "g"], text)
    }
}

#[test]
fn isomorphic_files_get_a_line_for_each_node(rt: HostRuntime) -> Result<(), Fail> {
    let keys = RandomState::new(&rt)?;
    let cases = [
        ("", "", ""),
        ("<e:s> <e:p> <e:o> .\n", "# c\n<e:s><e:p><e:o>.", ""),
        (PAIR, OTHER_PAIR, "_:a _:x\n_:b _:y\n"),
        (PERSON, TURNED_PERSON, "_:ada _:b1\n_:town _:b0\n"),
        (TURNED_PERSON, PERSON, "_:b0 _:town\n_:b1 _:ada\n"),
        (TURNED, TURNED, "_:a _:a\n_:b _:b\n_:c _:c\n"),
        (
            CREDENTIAL,
            TURNED_CREDENTIAL,
            "_:subject _:b2\n_:proofGraph _:b0\n_:proof _:b1\n",
        ),
    ];
    for (first, second, out) in cases {
        expect(
            &rt,
            rt.alloc(),
            keys,
            &comparison(first, second),
            None,
            done(out),
        )?;
    }
    Ok(())
}

#[test]
fn files_with_different_forms(rt: HostRuntime) -> Result<(), Fail> {
    let keys = RandomState::new(&rt)?;
    let cases = [
        ("", "<e:s> <e:p> <e:o> .\n", 1, "rdfc: not isomorphic\n"),
        (PERSON, MOVED_PERSON, 1, "rdfc: not isomorphic\n"),
        (RING, TWO_RINGS, 1, "rdfc: not isomorphic\n"),
        // One of the two runs has no open tie.
        (TURNED, PAIR, 1, "rdfc: not isomorphic\n"),
        (FOUR_AND_ONE, FOUR_AND_TWO, 9, "rdfc: undecided\n"),
    ];
    for (first, second, code, note) in cases {
        let want = nothing_written(code, note);
        expect(
            &rt,
            rt.alloc(),
            keys,
            &comparison(first, second),
            None,
            want,
        )?;
    }
    Ok(())
}

#[test]
fn what_ends_a_comparison_names_its_file(rt: HostRuntime) -> Result<(), Fail> {
    let keys = RandomState::new(&rt)?;
    let limited: &[&str] = &["compare", "--limit", "54", "f", "g"];
    let plain: &[&str] = &["compare", "f", "g"];
    let cases: [(&[&str], &str, &str, u8, u8, &str); 8] = [
        (
            &["compare", "f", "h"],
            FAULTY,
            "",
            4,
            0,
            "rdfc: f:2: not an N-Quads line\n",
        ),
        (
            &["compare", "f", "h"],
            PAIR,
            "",
            5,
            1,
            "rdfc: h: read failed\n",
        ),
        (
            &["compare", "h", "f"],
            PAIR,
            "",
            5,
            0,
            "rdfc: h: read failed\n",
        ),
        (
            plain,
            PAIR,
            FAULTY,
            4,
            1,
            "rdfc: g:2: not an N-Quads line\n",
        ),
        (
            plain,
            PAIR,
            "#\n<a> <e:p> <e:o> .",
            4,
            1,
            "rdfc: g:2: IRI without a scheme\n",
        ),
        (
            limited,
            RING,
            FAULTY,
            4,
            1,
            "rdfc: g:2: not an N-Quads line\n",
        ),
        (limited, RING, RING, 7, 0, "rdfc: f: work limit 54 passed\n"),
        (
            limited,
            TWO_RINGS,
            RING,
            7,
            1,
            "rdfc: g: work limit 54 passed\n",
        ),
    ];
    for (words, first, second, code, file, note) in cases {
        let trial = Trial {
            words,
            ..comparison(first, second)
        };
        let want = nothing_written(code, note);
        expect(&rt, rt.alloc(), keys, &trial, Some(file), want)?;
    }
    Ok(())
}

#[test]
fn a_read_that_fails_is_of_its_file(rt: HostRuntime) -> Result<(), Fail> {
    let keys = RandomState::new(&rt)?;
    // Twelve bytes each in pieces of seven: the start, two pieces, and the call that finds the end.
    let text = "# no quad\n\n\n";
    let cases = [
        (0, 0, "rdfc: f: read failed\n"),
        (1, 0, "rdfc: f: read failed\n"),
        (2, 0, "rdfc: f: read failed\n"),
        (3, 0, "rdfc: f: read failed\n"),
        (4, 1, "rdfc: g: read failed\n"),
        (5, 1, "rdfc: g: read failed\n"),
        (6, 1, "rdfc: g: read failed\n"),
        (7, 1, "rdfc: g: read failed\n"),
    ];
    for (call, file, note) in cases {
        let trial = Trial {
            shelf: &[call],
            ..comparison(text, text)
        };
        let want = nothing_written(5, note);
        expect(&rt, rt.alloc(), keys, &trial, Some(file), want)?;
    }
    let untouched = Trial {
        shelf: &[8],
        ..comparison(text, text)
    };
    expect(&rt, rt.alloc(), keys, &untouched, None, done(""))
}

#[test]
fn words_that_compare_no_two_files(rt: HostRuntime) -> Result<(), Fail> {
    let keys = RandomState::new(&rt)?;
    let cases: [&[&str]; 7] = [
        &["compare"],
        &["compare", "f"],
        &["compare", "f", "f", "f"],
        &["compare", "f", ""],
        &["compare", "-f", "g"],
        &["compare", "--hash", "sha384", "f", "g"],
        &["compare", "--related", "once", "f", "g"],
    ];
    for words in cases {
        let trial = plain(words, "");
        let want = nothing_written(2, "rdfc: the words are not a command\n");
        expect(&rt, rt.alloc(), keys, &trial, None, want)?;
    }
    Ok(())
}
