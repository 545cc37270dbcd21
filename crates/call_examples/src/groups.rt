//! The nodes that share a quad with a node, in groups by their related hashes (RDF Dataset Canonicalization, sections 4.7
//! and 4.8). The hashes were computed apart, by another program from the definitions.
ghost use Rattle.std.specs.Prelude.{◌<◌, length};

use crate::documents::{TWO_NODES, dataset_of};
use canon_model::{HexHash, Position, Profile, Related};
use dataset_index::Dataset;
use first_degree::FirstTable;
use id_issuer::Issuer;
use rdf_terms::Prefix;
use related_hash::{Group, groups, related};
use std::alloc::Global;
use std::hash::RandomState;
use std::process::Abort;
use std::test::Fail;

// The same two quads in each of two graphs.
const IN_TWO_GRAPHS: &str = "_:a <e:p> _:b <e:g> .
_:b <e:p> _:a <e:g> .
_:a <e:p> _:b <e:h> .
_:b <e:p> _:a <e:h> .
";

const ONCE: Profile = Profile {
    related: Related::Once,
    ..Profile::DEFAULT
};

fn is_group(group: &Group, hash: &str, nodes: &[u32]) -> bool {
    group.hash.as_bytes() == hash.as_bytes() && group.nodes.as_slice() == nodes
}

// Whether these are two groups with these hashes, both of these nodes.
fn are_two(groups: &[Group], hashes: [&str; 2], nodes: &[u32]) -> bool {
    match groups {
        [first, second] => is_group(first, hashes[0], nodes) && is_group(second, hashes[1], nodes),
        _ => false,
    }
}

// The groups of the first node, for an issuer that lists it alone.
fn groups_of_first(alloc: Global, dataset: &Dataset, profile: Profile) -> Result<Vec<Group>, Fail>
    requires { 0 < length dataset.now.labels }
{
    let first = FirstTable::build(alloc, dataset, profile)?;
    let canon = Issuer::new(alloc, Prefix::Canonical);
    let mut issuer = Issuer::new(alloc, Prefix::Temporary);
    issuer.issue(0)?;
    Ok(groups(alloc, dataset, first.all(), &canon, &issuer, 0, profile)?)
}

// Whether the first node has two groups with these hashes, both of these nodes.
fn has_groups(
    alloc: Global,
    dataset: &Dataset,
    profile: Profile,
    hashes: [&str; 2],
    nodes: &[u32],
) -> Result<bool, Fail> {
    if dataset.node_count() == 0 {
        return Err(Fail::from("the document has no blank node"));
    }
    let found = groups_of_first(alloc, dataset, profile)?;
    Ok(are_two(&found, hashes, nodes))
}

fn has_groups_of_text(
    alloc: Global,
    keys: RandomState,
    text: &str,
    profile: Profile,
    hashes: [&str; 2],
    nodes: &[u32],
) -> Result<bool, Fail> {
    let dataset = dataset_of(alloc, keys, text)?;
    has_groups(alloc, &dataset, profile, hashes, nodes)
}

fn assert_groups(rt: &impl Abort, holds: bool, text: &str) {
    assert!(rt; holds, "{text}");
}

#[test]
fn the_groups_of_the_first_of_two_nodes(rt: HostRuntime) -> Result<(), Fail> {
    let keys = RandomState::new(&rt)?;
    let alone = [
        "a91f0d713017bc329f687ff6c6ec53edd5d567367ef6184543bc52077db47067",
        "c80614ebf60711a4c7ea3199aeba1221d2aaa05e0a96da9d6a0b6e23e05b1b25",
    ];
    let twice = [
        "45bb8f06722bd132dc88e62978ec0a6e9625bc248f1c7782de87b6abcc15a6dd",
        "e00128bd5675cdefb66e9557470ecb78aa2fbb902c69da5b5d0b8d0708142708",
    ];
    let cases: [(&str, Profile, [&str; 2], &[u32]); 3] = [
        (TWO_NODES, Profile::DEFAULT, alone, &[1]),
        (IN_TWO_GRAPHS, Profile::DEFAULT, twice, &[1, 1]),
        (IN_TWO_GRAPHS, ONCE, twice, &[1]),
    ];
    for (text, profile, hashes, nodes) in cases {
        let holds = has_groups_of_text(rt.alloc(), keys, text, profile, hashes, nodes)?;
        assert_groups(&rt, holds, text);
    }
    Ok(())
}

// The related hash of the node, where the canonical issuer lists node 0 and the temporary one node 1.
fn hash_of(alloc: Global, first: &HexHash, node: u32, position: Position) -> Result<HexHash, Fail> {
    let mut canon = Issuer::new(alloc, Prefix::Canonical);
    let mut issuer = Issuer::new(alloc, Prefix::Temporary);
    canon.issue(0)?;
    issuer.issue(1)?;
    Ok(related(
        first,
        &canon,
        &issuer,
        node,
        "http://e/p",
        position,
        Profile::DEFAULT,
    ))
}

// Whether the node has this related hash, where its first-degree hash is that of the first node of the dataset.
fn is_related(
    alloc: Global,
    dataset: &Dataset,
    node: u32,
    position: Position,
    hash: &str,
) -> Result<bool, Fail> {
    let table = FirstTable::build(alloc, dataset, Profile::DEFAULT)?;
    match table.all().first() {
        Some(first) => {
            let found = hash_of(alloc, first, node, position)?;
            Ok(found.as_bytes() == hash.as_bytes())
        }
        None => Ok(false),
    }
}

fn is_related_in_text(
    alloc: Global,
    keys: RandomState,
    node: u32,
    position: Position,
    hash: &str,
) -> Result<bool, Fail> {
    let dataset = dataset_of(alloc, keys, TWO_NODES)?;
    is_related(alloc, &dataset, node, position, hash)
}

fn assert_related(rt: &impl Abort, holds: bool, hash: &str) {
    assert!(rt; holds, "{hash}");
}

#[test]
fn a_related_node_goes_by_its_identifier_or_its_hash(rt: HostRuntime) -> Result<(), Fail> {
    let keys = RandomState::new(&rt)?;
    let cases = [
        (
            0,
            Position::Subject,
            "712be83ecde0a9e702c50d85e85292d8cd5cfc1fc36aa33f81a00c85171b6113",
        ),
        (
            1,
            Position::Object,
            "d61b6996266050057f0814fa6d543ceb9b386f7964c206408692392160498500",
        ),
        (
            2,
            Position::Object,
            "a91f0d713017bc329f687ff6c6ec53edd5d567367ef6184543bc52077db47067",
        ),
        (
            2,
            Position::Graph,
            "f6570520a8bb7ed815dd5305e3a867612743b07b1f7e35aee7bc28a6c65718a4",
        ),
    ];
    for (node, position, hash) in cases {
        let holds = is_related_in_text(rt.alloc(), keys, node, position, hash)?;
        assert_related(&rt, holds, hash);
    }
    Ok(())
}
