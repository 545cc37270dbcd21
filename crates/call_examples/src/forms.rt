//! The canonical form of a dataset, and two datasets compared by theirs.
use crate::documents::{TWO_CHAINS, TWO_NODES, dataset_of};
use canon_core::{Canon, canonicalise};
use canon_model::Profile;
use dataset_index::Dataset;
use iso_compare::{Verdict, compare};
use ndegree_hash::Stop;
use std::alloc::Global;
use std::hash::RandomState;
use std::process::Abort;
use std::test::Fail;

// What the form of a dataset is, by its hash, and what its run counts.
#[derive(Clone, Copy)]
struct Run<'a> {
    order: &'a [u32],
    units: u64,
    ties: u64,
    hash: &'a str,
}

// The form, or none where its run takes more units than the limit.
fn form_of(
    alloc: Global,
    keys: RandomState,
    text: &str,
    limit: u64,
) -> Result<Option<Canon>, Fail> {
    let dataset = dataset_of(alloc, keys, text)?;
    match canonicalise(alloc, &dataset, limit, Profile::DEFAULT) {
        Ok(canon) => Ok(Some(canon)),
        Err(Stop::WorkLimit) => Ok(None),
        Err(Stop::NoMemory) => Err(Fail::from("memory was refused")),
    }
}

// All ties of the examples are joined.
fn assert_run(rt: &impl Abort, canon: &Canon, want: Run<'_>) {
    assert_eq!(rt; canon.order.as_slice(), want.order);
    assert_eq!(rt;
        (canon.units, canon.ties, canon.joined),
        (want.units, want.ties, want.ties)
    );
    assert_eq!(rt; canon.hash().as_bytes(), want.hash.as_bytes());
}

fn has_form(alloc: Global, keys: RandomState, text: &str, limit: u64) -> Result<bool, Fail> {
    let form = form_of(alloc, keys, text, limit)?;
    Ok(form.is_some())
}

fn assert_none(rt: &impl Abort, there: bool) {
    assert!(rt; !there);
}

// The form comes where the limit is just enough.
fn expect_run(
    rt: &impl Abort,
    alloc: Global,
    keys: RandomState,
    text: &str,
    want: Run<'_>,
) -> Result<(), Fail> {
    match form_of(alloc, keys, text, want.units)? {
        Some(canon) => {
            assert_run(rt, &canon, want);
            Ok(())
        }
        None => Err(Fail::from("a run takes more units than it should")),
    }
}

// And not below.
fn expect_form(
    rt: &impl Abort,
    alloc: Global,
    keys: RandomState,
    text: &str,
    want: Run<'_>,
) -> Result<(), Fail> {
    expect_run(rt, alloc, keys, text, want)?;
    let below = has_form(alloc, keys, text, want.units.saturating_sub(1))?;
    assert_none(rt, below);
    Ok(())
}

// The hashes of the forms were computed apart, by another program from the definitions.
#[test]
fn the_form_comes_where_its_units_are_within_the_limit(rt: HostRuntime) -> Result<(), Fail> {
    let keys = RandomState::new(&rt)?;
    let pair = Run {
        order: &[0, 1],
        units: 12,
        ties: 1,
        hash: "3f47b35001eb37da7cef51f8b76490fcf89eac4953743487fc22d60ff41ac347",
    };
    let chains = Run {
        order: &[3, 2, 1, 0, 4, 8, 7, 6, 5, 9],
        units: 26,
        ties: 1,
        hash: "41aea5b466ec3b0bb789f067a12362ce9db8a9018bf770ad4ee4184dabe8d63b",
    };
    expect_form(&rt, rt.alloc(), keys, TWO_NODES, pair)?;
    expect_form(&rt, rt.alloc(), keys, TWO_CHAINS, chains)
}

#[derive(Clone, Copy)]
enum Wanted<'a> {
    Map(&'a [(u32, u32)]),
    Different,
    Limit,
}

fn is_wanted(verdict: &Verdict, want: Wanted<'_>) -> bool {
    match verdict {
        Verdict::Same(map) => match want {
            Wanted::Map(pairs) => map.pairs.as_slice() == pairs,
            _ => false,
        },
        Verdict::Different => match want {
            Wanted::Different => true,
            _ => false,
        },
        Verdict::Undecided(_, _) => false,
    }
}

fn is_limit(want: Wanted<'_>) -> bool {
    match want {
        Wanted::Limit => true,
        _ => false,
    }
}

// Whether the comparison of two datasets ends so.
fn is_verdict(
    alloc: Global,
    dataset: &Dataset,
    other: &Dataset,
    limit: u64,
    want: Wanted<'_>,
) -> Result<bool, Fail> {
    match compare(alloc, dataset, other, limit) {
        Ok(verdict) => Ok(is_wanted(&verdict, want)),
        Err(Stop::WorkLimit) => Ok(is_limit(want)),
        Err(Stop::NoMemory) => Err(Fail::from("memory was refused")),
    }
}

fn is_verdict_of_texts(
    alloc: Global,
    keys: RandomState,
    texts: [&str; 2],
    limit: u64,
    want: Wanted<'_>,
) -> Result<bool, Fail> {
    let dataset = dataset_of(alloc, keys, texts[0])?;
    let other = dataset_of(alloc, keys, texts[1])?;
    is_verdict(alloc, &dataset, &other, limit, want)
}

fn assert_verdict(rt: &impl Abort, holds: bool, limit: u64) {
    assert!(rt; holds, "with the limit {limit}");
}

#[test]
fn datasets_are_compared_by_their_forms(rt: HostRuntime) -> Result<(), Fail> {
    let keys = RandomState::new(&rt)?;
    // The second node of the one is the first of the other.
    let named = "_:a <e:name> \"Ada\" .\n_:b <e:name> \"Bob\" .\n_:a <e:knows> _:b .\n";
    let turned = "_:y <e:name> \"Bob\" .\n_:x <e:knows> _:y .\n_:x <e:name> \"Ada\" .\n";
    let cases = [
        ([named, turned], 1, Wanted::Map(&[(0, 1), (1, 0)])),
        ([named, TWO_NODES], 12, Wanted::Different),
        ([named, TWO_NODES], 11, Wanted::Limit),
    ];
    for (texts, limit, want) in cases {
        let holds = is_verdict_of_texts(rt.alloc(), keys, texts, limit, want)?;
        assert_verdict(&rt, holds, limit);
    }
    Ok(())
}
