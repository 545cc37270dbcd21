//! The groups of a call.

ghost use Rattle.std.specs.Prelude.{◌≡◌, ◌<◌, ℕ, map, length, IfOk};
ghost use Rattle.rdf_terms.specs.Lists.{In, Permutes, numbers_below, sorted};
ghost use Rattle.rdf_terms.specs.Document.{dataset as dataset_of};
ghost use Rattle.canon_model.specs.FirstDegree.{hash_first_degree_quads};
ghost use Rattle.canon_model.specs.Groups.{groups as groups_of_call};
ghost use Rattle.canon_model.specs.Groups.{blank_node_list, related_hashes};
ghost use Rattle.canon_model.specs.Meaning.{meaning};
ghost use Rattle.related_hash.specs.declared.group.Group.{Group as GroupValue};
ghost use Rattle.related_hash.specs.Entries.{hash_of, related_entry};
ghost use Rattle.related_hash.specs.Gathering.{groups_of, AllArranged, IsArranged};
ghost use Rattle.related_hash.specs.Grouping.{AllAscend, AreGroups, StandFor};

use crate::call::Call;
use crate::entry::Entry;
use crate::group::Group;
use crate::met::entries_of;
use crate::once::as_profile_reads;
use crate::open_groups::{OpenGroup, OpenGroups};
use canon_model::{HexHash, Profile};
use dataset_index::Dataset;
use id_issuer::Issuer;
use rdf_terms::{NoMemory, Prefix};
use std::alloc::Global;

// Puts the entries in the code point order of their hashes.
fn sort_by_hash(entries: &mut Vec<Entry>)
    ensures permutes { Permutes (map related_entry entries.old.items) (map related_entry entries.new.items) }
    ensures sorted { map hash_of entries.new.items ≡ sorted (map hash_of entries.old.items) }
{
    entries.sort_unstable_by(|entry, other| entry.hash.cmp(&other.hash));
}

// The groups of entries that stand in the order of their hashes.
fn gathered(alloc: Global, entries: Vec<Entry>) -> Result<OpenGroups, NoMemory>
    ensures { IfOk result (λ groups. groups ≡ groups_of (map related_entry entries.items)) }
{
    let mut entries = entries;
    let mut groups = OpenGroups::new(alloc);
    while let Some(entry) = entries.pop() {
        groups.add(alloc, entry)?;
    }
    Ok(groups)
}

// The group with its nodes as the profile reads them.
fn closed(group: OpenGroup, profile: Profile) -> Group
    ensures { IsArranged (meaning profile) group result }
{
    Group {
        hash: group.hash,
        nodes: as_profile_reads(group.nodes, profile),
    }
}

// The groups with their nodes as the profile reads them, in a vector with room for no more: the calls that stand open
// each keep theirs.
fn all_closed(alloc: Global, groups: OpenGroups, profile: Profile) -> Result<Vec<Group>, NoMemory>
    ensures { IfOk result (λ closed. AllArranged (meaning profile) groups closed.items) }
{
    let mut open = groups;
    let mut closed_groups = Vec::with_capacity(alloc, open.len())?;
    while let Some(group) = open.next() {
        closed_groups.push(closed(group, profile))?;
    }
    Ok(closed_groups)
}

// The groups of entries in any order.
fn groups_of_entries(
    alloc: Global,
    entries: Vec<Entry>,
    profile: Profile,
) -> Result<Vec<Group>, NoMemory>
    ensures groups { IfOk result (λ groups. AreGroups (blank_node_list (meaning profile) (map related_entry entries.items)) (related_hashes (map related_entry entries.items)) groups.items) }
    ensures ascending { IfOk result (λ groups. AllAscend groups.items) }
{
    let mut sorted = entries;
    sort_by_hash(&mut sorted);
    let open = gathered(alloc, sorted)?;
    let groups = all_closed(alloc, open, profile)?;
    Ok(groups)
}

/// The groups of a call (RDF Dataset Canonicalization, section 4.8, steps 1 to 3), ascending by
/// their hashes, with their nodes ascending: a node that was met several times under one hash stands
/// in its group as often, or once, as the profile says. Of the hashes by which it is told apart,
/// `first` has those of the first degree, by node.
pub fn groups(
    alloc: Global,
    dataset: &Dataset,
    first: &[HexHash],
    canon: &Issuer,
    issuer: &Issuer,
    node: u32,
    profile: Profile,
) -> Result<Vec<Group>, NoMemory>
    requires node { node < length dataset.now.labels }
    requires first { first.now ≡ map (hash_first_degree_quads (meaning profile) (dataset_of dataset.now)) (numbers_below (length dataset.now.labels)) }
    requires canonical { canon.now.prefix ≡ Prefix.Canonical }
    requires temporary { issuer.now.prefix ≡ Prefix.Temporary }
    ensures groups { IfOk result (λ groups. StandFor (groups_of_call (meaning profile) (dataset_of dataset.now) canon.now.list issuer.now.list node) groups.items) }
    ensures ascending { IfOk result (λ groups. AllAscend groups.items) }
    ensures in_range { IfOk result (λ groups. (group : GroupValue) → In group groups.items → (x : ℕ) → In x group.nodes → x < length dataset.now.labels) }
{
    let _nodes = dataset.node_count();
    let call = Call {
        dataset,
        first,
        canon,
        issuer,
        node,
        profile,
    };
    let entries = entries_of(alloc, &call)?;
    let found = groups_of_entries(alloc, entries, profile)?;
    Ok(found)
}
