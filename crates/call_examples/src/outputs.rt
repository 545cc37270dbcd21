//! Whether a dataset has another output than that of its run.
use crate::documents::{FOUR_QUADS, LATIN_SQUARE, TWO_NODES, dataset_of};
use canon_core::canonicalise;
use canon_model::Profile;
use ndegree_hash::Stop;
use other_output::{Openness, other_form};
use std::alloc::Global;
use std::hash::RandomState;
use std::process::Abort;
use std::test::Fail;

// How the search for another output ends.
#[derive(Clone, Copy, PartialEq, Eq, Debug)]
enum Ending {
    Settled,
    Another,
    NotKnown,
    Limit,
}

// Canonical forms of one dataset are equally long, as long as their identifiers are: here each node has one digit.
fn is_other_form(form: &[u8], other: &[u8]) -> bool {
    other.len() == form.len() && other != form
}

fn ending_told(form: &[u8], answer: Result<Openness, Stop>) -> Result<Ending, Fail> {
    match answer {
        Ok(Openness::Settled) => Ok(Ending::Settled),
        Ok(Openness::NotKnown) => Ok(Ending::NotKnown),
        Ok(Openness::Another(other)) => {
            if is_other_form(form, other.as_slice()) {
                Ok(Ending::Another)
            } else {
                Err(Fail::from("the other output is no other form"))
            }
        }
        Err(Stop::WorkLimit) => Ok(Ending::Limit),
        Err(Stop::NoMemory) => Err(Fail::from("memory was refused")),
    }
}

// The limit is that of the second run.
fn ending_of(alloc: Global, keys: RandomState, text: &str, limit: u64) -> Result<Ending, Fail> {
    let dataset = dataset_of(alloc, keys, text)?;
    match canonicalise(alloc, &dataset, 10_000_000, Profile::DEFAULT) {
        Ok(canon) => ending_told(
            canon.bytes.as_slice(),
            other_form(alloc, &dataset, &canon, limit, keys),
        ),
        Err(_) => Err(Fail::from("the first run stopped")),
    }
}

fn assert_ending(rt: &impl Abort, found: Ending, want: Ending) {
    assert_eq!(rt; found, want);
}

#[test]
fn another_output_is_found_where_a_tie_is_open(rt: HostRuntime) -> Result<(), Fail> {
    let keys = RandomState::new(&rt)?;
    let cases = [
        (TWO_NODES, 0, Ending::Settled),
        (FOUR_QUADS, 150, Ending::Another),
        (FOUR_QUADS, 100, Ending::Limit),
        (LATIN_SQUARE, 10_000_000, Ending::Another),
    ];
    for (text, limit, want) in cases {
        let found = ending_of(rt.alloc(), keys, text, limit)?;
        assert_ending(&rt, found, want);
    }
    Ok(())
}
