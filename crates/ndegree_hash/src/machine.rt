//! The calls of Hash N-Degree Quads, as frames in a vector.

ghost use Rattle.std.specs.Prelude.{◌≡◌, ◌<◌, ◌≤◌, ◌+◌, ◌++◌, ◌∷◌, [], suc, length, map, OnOk, OnErr, IfOk};
ghost use Rattle.rdf_terms.specs.Lists.{numbers_below};
ghost use Rattle.rdf_terms.specs.Dataset.{IsValid};
ghost use Rattle.rdf_terms.specs.Document.{dataset as dataset_of};
ghost use Rattle.canon_model.specs.Meaning.{meaning};
ghost use Rattle.canon_model.specs.FirstDegree.{hash_first_degree_quads};
ghost use Rattle.ndegree_hash.specs.OpenCalls.{IsOpened, IsLeft, AreStacked, IsFinished};
ghost use Rattle.canon_model.specs.Issuer.{IsValidCall};
ghost use Rattle.canon_model.specs.CountedRun.{counted_call};
ghost use Rattle.ndegree_hash.specs.Call.{IsCallResult, Spends, IsOverBudget, LogsTiesOfCall, LogsFrontOfCall, IsOnlyOutcome};
ghost use Rattle.ndegree_hash.specs.Log.{LogsFront, LogsInTurn};

use crate::at::At;
use crate::budget::Budget;
use crate::frame::Frame;
use crate::group_stack::GroupStack;
use crate::log::TieLog;
use crate::paths::Paths;
use crate::permutations::begin;
use crate::recursion::resume;
use crate::step::step;
use crate::stop::Stop;
use arrangements::Arrangement;
use canon_model::{HexHash, Profile};
use dataset_index::Dataset;
use id_issuer::Issuer;
use profile_hash::hash_of_text;
use rdf_terms::{NoMemory, Prefix};
use related_hash::groups;
use std::alloc::Global;
use std::mem;

/// Hash N-Degree Quads (RDF Dataset Canonicalization, section 4.8) of a node, in the order of the
/// counted run: the hash, and the issuer with what was issued. The issuer is taken, and lost where
/// the call stops.
pub fn n_degree(
    alloc: Global,
    dataset: &Dataset,
    first: &[HexHash],
    canon: &Issuer,
    node: u32,
    issuer: Issuer,
    budget: &mut Budget,
    ties: &mut TieLog,
    profile: Profile,
) -> Result<(HexHash, Issuer), Stop>
    requires call { IsValidCall (dataset_of dataset.now) canon.now.list node issuer.list }
    requires first { first.now ≡ map (hash_first_degree_quads (meaning profile) (dataset_of dataset.now)) (numbers_below (length dataset.now.labels)) }
    requires canonical { canon.now.prefix ≡ Prefix.Canonical }
    requires temporary { issuer.prefix ≡ Prefix.Temporary }
    requires few_ties { ties.old.total ≤ budget.old.spent }
    ensures result_is { IfOk result (λ r. IsCallResult (meaning profile) (dataset_of dataset.now) canon.now.list node issuer.list r.0 r.1.list) }
    ensures prefix { IfOk result (λ r. r.1.prefix ≡ issuer.prefix) }
    ensures limit { budget.new.limit ≡ budget.old.limit }
    ensures grown { budget.old.spent ≤ budget.new.spent }
    ensures stopped { result ≡ Err Stop.WorkLimit → budget.new.spent ≡ budget.new.limit }
    ensures front { OnErr result (LogsFrontOfCall (meaning profile) (dataset_of dataset.now) canon.now.list node issuer.list ties.old ties.new) }
    ensures spent { OnOk result (Spends (meaning profile) (dataset_of dataset.now) canon.now.list node issuer.list budget.old budget.new) }
    ensures ties { OnOk result (LogsTiesOfCall (meaning profile) (dataset_of dataset.now) canon.now.list node issuer.list ties.old ties.new) }
    ensures few_ties { ties.new.total ≤ budget.new.spent }
    ensures fewer { OnOk result (ties.new.total + budget.old.spent < budget.new.spent + ties.old.total) }
    ensures over { result ≡ Err Stop.WorkLimit → IsOverBudget (meaning profile) (dataset_of dataset.now) canon.now.list node issuer.list budget.old }
    ensures only { OnOk result (ties.new.total + ties.old.joined ≡ ties.old.total + ties.new.joined → IsOnlyOutcome (meaning profile) (dataset_of dataset.now) canon.now.list node issuer.list) }
{
    let _nodes = count_nodes(dataset);
    let mut trail = issuer;
    let hash = run(
        alloc, dataset, first, canon, node, &mut trail, budget, ties, profile,
    )?;
    Ok((hash, trail))
}

// The number of nodes, with what calls need to know of the dataset.
fn count_nodes(dataset: &Dataset) -> u32
    ensures count { result ≡ length dataset.now.labels }
    ensures fits { length dataset.now.labels ≤ u32.MAX }
    ensures valid { IsValid (dataset_of dataset.now) }
{
    dataset.node_count()
}

// Opens the call of a node.
fn open_call(
    alloc: Global,
    dataset: &Dataset,
    first: &[HexHash],
    canon: &Issuer,
    trail: &Issuer,
    node: u32,
    profile: Profile,
) -> Result<Frame, NoMemory>
    requires node { node < length dataset.now.labels }
    requires first { first.now ≡ map (hash_first_degree_quads (meaning profile) (dataset_of dataset.now)) (numbers_below (length dataset.now.labels)) }
    requires canonical { canon.now.prefix ≡ Prefix.Canonical }
    requires temporary { trail.now.prefix ≡ Prefix.Temporary }
    ensures { IfOk result (IsOpened (meaning profile) (dataset_of dataset.now) canon.now.list node trail.now.list) }
{
    let found = groups(alloc, dataset, first, canon, trail, node, profile)?;
    let groups = GroupStack::new(found);
    let arrangement = Arrangement::first(alloc, &[])?;
    Ok(Frame {
        text: Vec::new(alloc),
        groups,
        mark: trail.mark().length,
        arrangement,
        paths: Paths::new(alloc),
        next: 0,
        last: 0,
        on_trail: false,
        tail: Vec::new(alloc),
        others: Vec::new(alloc),
    })
}

// The running frame waits for a call, which runs from now on.
fn enter(
    alloc: Global,
    dataset: &Dataset,
    first: &[HexHash],
    canon: &Issuer,
    trail: &Issuer,
    node: u32,
    below: &mut Vec<Frame>,
    frame: &mut Frame,
    profile: Profile,
) -> Result<(), NoMemory>
    requires node { node < length dataset.now.labels }
    requires first { first.now ≡ map (hash_first_degree_quads (meaning profile) (dataset_of dataset.now)) (numbers_below (length dataset.now.labels)) }
    requires canonical { canon.now.prefix ≡ Prefix.Canonical }
    requires temporary { trail.now.prefix ≡ Prefix.Temporary }
    ensures below { OnOk result (below.new.items ≡ below.old.items ++ frame.old ∷ []) }
    ensures frame { OnOk result (IsOpened (meaning profile) (dataset_of dataset.now) canon.now.list node trail.now.list frame.new) }
{
    let called = open_call(alloc, dataset, first, canon, trail, node, profile)?;
    let caller = mem::replace(frame, called);
    below.push(caller)?;
    Ok(())
}

// The running call has given its hash: the one around it goes on, if there is one.
fn leave(
    canon: &Issuer,
    trail: &Issuer,
    hash: &HexHash,
    below: &mut Vec<Frame>,
    frame: &mut Frame,
) -> Result<Option<At>, NoMemory>
    requires stacked { AreStacked below.old.items (length trail.now.list) }
    ensures { IfOk result (IsLeft canon.now.list trail.now.list below.old.items hash.now below.new.items frame.new) }
{
    let Some(caller) = below.pop() else {
        return Ok(None);
    };
    *frame = caller;
    let at = resume(canon, trail, frame, hash)?;
    Ok(Some(at))
}

// The whole machine, on the issuer that it was given. The running frame is kept apart from those that wait.
fn run(
    alloc: Global,
    dataset: &Dataset,
    first: &[HexHash],
    canon: &Issuer,
    node: u32,
    trail: &mut Issuer,
    budget: &mut Budget,
    ties: &mut TieLog,
    profile: Profile,
) -> Result<HexHash, Stop>
    requires call { IsValidCall (dataset_of dataset.now) canon.now.list node trail.old.list }
    requires first { first.now ≡ map (hash_first_degree_quads (meaning profile) (dataset_of dataset.now)) (numbers_below (length dataset.now.labels)) }
    requires canonical { canon.now.prefix ≡ Prefix.Canonical }
    requires temporary { trail.old.prefix ≡ Prefix.Temporary }
    requires few_ties { ties.old.total ≤ budget.old.spent }
    requires valid { IsValid (dataset_of dataset.now) }
    requires fits { length dataset.now.labels ≤ u32.MAX }
    ensures finished { IfOk result (λ hash. IsFinished (dataset_of dataset.now) (counted_call (meaning profile) (dataset_of dataset.now) canon.now.list node trail.old.list) (record { spent = budget.old.spent; log = ties.old }) hash trail.new.list (record { spent = budget.new.spent; log = ties.new })) }
    ensures few_ties { ties.new.total ≤ budget.new.spent }
    ensures fewer { OnOk result (ties.new.total + budget.old.spent < budget.new.spent + ties.old.total) }
    ensures over { result ≡ Err Stop.WorkLimit → budget.old.limit < budget.old.spent + (counted_call (meaning profile) (dataset_of dataset.now) canon.now.list node trail.old.list).trace.units }
    ensures limit { budget.new.limit ≡ budget.old.limit }
    ensures grown { budget.old.spent ≤ budget.new.spent }
    ensures stopped { result ≡ Err Stop.WorkLimit → budget.new.spent ≡ budget.new.limit }
    ensures front { OnErr result (LogsFront (LogsInTurn (dataset_of dataset.now)) (counted_call (meaning profile) (dataset_of dataset.now) canon.now.list node trail.old.list).trace.ties ties.old ties.new) }
    ensures within { OnOk result (budget.new.spent ≤ budget.new.limit) }
    ensures prefix { trail.new.prefix ≡ trail.old.prefix }
{
    if !budget.spend() {
        return Err(Stop::WorkLimit);
    }
    let mut below: Vec<Frame> = Vec::new(alloc);
    let mut frame = open_call(alloc, dataset, first, canon, trail, node, profile)?;
    let mut at = At::Group;
    loop {
        match at {
            At::Begin => {
                if !budget.spend() {
                    return Err(Stop::WorkLimit);
                }
                at = begin(canon, trail, &mut frame)?;
            }
            At::Call(called) => {
                if !budget.spend() {
                    return Err(Stop::WorkLimit);
                }
                enter(
                    alloc, dataset, first, canon, trail, called, &mut below, &mut frame, profile,
                )?;
                at = At::Group;
            }
            At::Return => {
                let hash = hash_of_text(frame.text.as_slice(), profile);
                let left = leave(canon, trail, &hash, &mut below, &mut frame)?;
                match left {
                    None => return Ok(hash),
                    Some(to) => at = to,
                }
            }
            At::Group | At::Recursion | At::Ended | At::Between | At::Close => {
                let next = step(alloc, dataset, canon, trail, &mut frame, ties, at)?;
                at = next;
            }
        }
    }
}
