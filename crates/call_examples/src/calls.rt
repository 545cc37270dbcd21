//! Hash N-Degree Quads (RDF Dataset Canonicalization, section 4.8) on small datasets: units, ties, limits and witnesses.
ghost use Rattle.std.specs.Prelude.{◌≡◌, ◌≤◌, ◌<◌, length};
ghost use Rattle.canon_model.specs.Meaning.{meaning};
ghost use Rattle.canon_model.specs.declared.profile.TheConstants.Profile.{DEFAULT};
ghost use Rattle.first_degree.specs.FirstHashes.{first_degree_hashes};

use crate::documents::{TWO_NODES, dataset_of};
use canon_model::Profile;
use dataset_index::Dataset;
use first_degree::FirstTable;
use id_issuer::Issuer;
use ndegree_hash::{Budget, Stop, TieLog, n_degree};
use rdf_terms::{Bijection, Prefix};
use std::alloc::Global;
use std::hash::RandomState;
use std::process::Abort;
use std::test::Fail;
use tie_witness::witness;

const TWO_LOOPS: &str = "_:a <http://e/p> _:a .
_:b <http://e/p> _:b .
";

const THREE_TURNED: &str = "_:a <http://e/p> _:b _:c .
_:b <http://e/p> _:c _:a .
_:c <http://e/p> _:a _:b .
";

// Each of five nodes points at each other one.
const FIVE: &str = "_:a <http://e/p> _:b .
_:a <http://e/p> _:c .
_:a <http://e/p> _:d .
_:a <http://e/p> _:e .
_:b <http://e/p> _:a .
_:b <http://e/p> _:c .
_:b <http://e/p> _:d .
_:b <http://e/p> _:e .
_:c <http://e/p> _:a .
_:c <http://e/p> _:b .
_:c <http://e/p> _:d .
_:c <http://e/p> _:e .
_:d <http://e/p> _:a .
_:d <http://e/p> _:b .
_:d <http://e/p> _:c .
_:d <http://e/p> _:e .
_:e <http://e/p> _:a .
_:e <http://e/p> _:b .
_:e <http://e/p> _:c .
_:e <http://e/p> _:d .
";

// The issuer that the call of a node returns, or none where the budget is too small. The issuer that is passed in lists
// the node alone.
fn call(
    alloc: Global,
    dataset: &Dataset,
    first: &FirstTable,
    node: u32,
    budget: &mut Budget,
    ties: &mut TieLog,
) -> Result<Option<Issuer>, Fail>
    requires node { node < length dataset.now.labels }
    requires fits { length dataset.now.labels ≤ u32.MAX }
    requires first { first.now ≡ first_degree_hashes (meaning DEFAULT) dataset.now }
    requires few_ties { ties.old.total ≤ budget.old.spent }
    ensures few_ties { ties.new.total ≤ budget.new.spent }
{
    let canon = Issuer::new(alloc, Prefix::Canonical);
    let mut issuer = Issuer::new(alloc, Prefix::Temporary);
    issuer.issue(node)?;
    let called = n_degree(
        alloc,
        dataset,
        first.all(),
        &canon,
        node,
        issuer,
        budget,
        ties,
        Profile::DEFAULT,
    );
    match called {
        Ok((_, list)) => Ok(Some(list)),
        Err(Stop::WorkLimit) => Ok(None),
        Err(Stop::NoMemory) => Err(Fail::from("memory was refused")),
    }
}

// The units, the ties and the joined ties of the calls of all nodes, one after the other.
fn count_calls(alloc: Global, dataset: &Dataset) -> Result<(u64, u64, u64), Fail> {
    let first = FirstTable::build(alloc, dataset, Profile::DEFAULT)?;
    let mut budget = Budget::new(1_000_000);
    let mut ties = TieLog::new();
    let nodes = dataset.node_count();
    for node in 0..nodes {
        call(alloc, dataset, &first, node, &mut budget, &mut ties)?;
    }
    Ok((budget.spent(), ties.total(), ties.joined()))
}

fn counted(alloc: Global, keys: RandomState, text: &str) -> Result<(u64, u64, u64), Fail> {
    let dataset = dataset_of(alloc, keys, text)?;
    count_calls(alloc, &dataset)
}

fn assert_counts(rt: &impl Abort, counts: (u64, u64, u64), want: (u64, u64, u64)) {
    assert_eq!(rt; counts, want);
}

#[test]
fn the_units_and_ties_of_the_calls_of_all_nodes(rt: HostRuntime) -> Result<(), Fail> {
    let keys = RandomState::new(&rt)?;
    let cases = [
        (TWO_NODES, (12, 0, 0)),
        (TWO_LOOPS, (2, 0, 0)),
        (THREE_TURNED, (105, 3, 0)),
        (FIVE, (4565, 115, 115)),
    ];
    for (text, counts) in cases {
        assert_counts(&rt, counted(rt.alloc(), keys, text)?, counts);
    }
    Ok(())
}

fn is_list(issuer: &Option<Issuer>, want: Option<&[u32]>) -> bool {
    match issuer {
        Some(issuer) => match want {
            Some(nodes) => issuer.list() == nodes,
            None => false,
        },
        None => want.is_none(),
    }
}

// Whether the call of the first node returns an issuer with this list within the limit, or none, and the units that were
// spent.
fn first_call(
    alloc: Global,
    dataset: &Dataset,
    limit: u64,
    want: Option<&[u32]>,
) -> Result<(bool, u64), Fail> {
    let first = FirstTable::build(alloc, dataset, Profile::DEFAULT)?;
    let mut budget = Budget::new(limit);
    let mut ties = TieLog::new();
    if dataset.node_count() == 0 {
        return Err(Fail::from("the document has no blank node"));
    }
    let issuer = call(alloc, dataset, &first, 0, &mut budget, &mut ties)?;
    Ok((is_list(&issuer, want), budget.spent()))
}

fn first_call_of_text(
    alloc: Global,
    keys: RandomState,
    limit: u64,
    want: Option<&[u32]>,
) -> Result<(bool, u64), Fail> {
    let dataset = dataset_of(alloc, keys, TWO_NODES)?;
    first_call(alloc, &dataset, limit, want)
}

fn assert_call(rt: &impl Abort, found: (bool, u64), spent: u64) {
    assert_eq!(rt; found, (true, spent));
}

#[test]
fn a_call_ends_where_its_units_are_within_the_limit(rt: HostRuntime) -> Result<(), Fail> {
    let keys = RandomState::new(&rt)?;
    let enough = first_call_of_text(rt.alloc(), keys, 6, Some(&[0, 1]))?;
    assert_call(&rt, enough, 6);
    let too_few = first_call_of_text(rt.alloc(), keys, 5, None)?;
    assert_call(&rt, too_few, 5);
    Ok(())
}

fn assert_text(rt: &impl Abort, alloc: Global, stop: Stop, want: &str) -> Result<(), Fail> {
    let text = format!(in alloc; "{stop}")?;
    assert_eq!(rt; text.as_str(), want);
    Ok(())
}

#[test]
fn a_stop_says_why(rt: HostRuntime) -> Result<(), Fail> {
    let cases = [
        (Stop::WorkLimit, "more units of work than the limit"),
        (Stop::NoMemory, "out of memory"),
    ];
    for (stop, text) in cases {
        assert_text(&rt, rt.alloc(), stop, text)?;
    }
    Ok(())
}

fn has_pairs(found: &Option<Bijection>, want: Option<&[(u32, u32)]>) -> bool {
    match found {
        Some(bijection) => match want {
            Some(pairs) => bijection.pairs.as_slice() == pairs,
            None => false,
        },
        None => want.is_none(),
    }
}

// Whether the exchange of the first two nodes has a witness with these pairs, or none.
fn is_exchange(
    alloc: Global,
    dataset: &Dataset,
    want: Option<&[(u32, u32)]>,
) -> Result<bool, Fail> {
    if dataset.node_count() < 2 {
        return Err(Fail::from("the document has fewer than two blank nodes"));
    }
    let canon = Issuer::new(alloc, Prefix::Canonical);
    let found = witness(alloc, dataset, &canon, 0, &[0, 1], &[1, 0])?;
    Ok(has_pairs(&found, want))
}

fn is_exchange_of_text(
    alloc: Global,
    keys: RandomState,
    text: &str,
    want: Option<&[(u32, u32)]>,
) -> Result<bool, Fail> {
    let dataset = dataset_of(alloc, keys, text)?;
    is_exchange(alloc, &dataset, want)
}

fn assert_that(rt: &impl Abort, holds: bool) {
    assert!(rt; holds);
}

#[test]
fn an_exchange_has_a_witness_where_it_is_a_symmetry(rt: HostRuntime) -> Result<(), Fail> {
    let keys = RandomState::new(&rt)?;
    let turned = is_exchange_of_text(rt.alloc(), keys, TWO_NODES, Some(&[(0, 1), (1, 0)]))?;
    assert_that(&rt, turned);
    let none = is_exchange_of_text(rt.alloc(), keys, "_:a <http://e/p> _:b .\n", None)?;
    assert_that(&rt, none);
    Ok(())
}
