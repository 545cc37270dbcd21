//! The groups of a call, one after the other (RDF Dataset Canonicalization, section 4.8, step 5).

ghost use Rattle.std.specs.Prelude.{◌≡◌, ◌≤◌, ◌<◌, ◌+◌, ◌++◌, false, length, map, take, OnOk, OnErr, IfOk, All};
ghost use Rattle.rdf_terms.specs.Lists.{AreDistinct};
ghost use Rattle.canon_model.specs.CountedRun.{nothing, logged};
ghost use Rattle.ndegree_hash.specs.FramePlaces.{IsAt};
ghost use Rattle.ndegree_hash.specs.FrameSteps.{Leads};
ghost use Rattle.ndegree_hash.specs.Frames.{chosen_issuer};
ghost use Rattle.ndegree_hash.specs.OwedTies.{ties_at, MayBeLogged, owed};
ghost use Rattle.ndegree_hash.specs.KnownNodes.{Keeps, IsKnown};
ghost use Rattle.ndegree_hash.specs.Log.{LogsFront, LogsInTurn};
ghost use Rattle.ndegree_hash.specs.Closing.{tie_with};
ghost use Rattle.rdf_terms.specs.Document.{dataset as dataset_of};
ghost use Rattle.tie_witness.specs.Witness.{TailMayBeChecked};

use crate::at::At;
use crate::frame::Frame;
use crate::log::TieLog;
use arrangements::Arrangement;
use dataset_index::Dataset;
use id_issuer::{Issuer, Mark};
use rdf_terms::{NoMemory, NodeList};
use std::alloc::Global;

// Begins the next group, or ends the call.
pub(crate) fn next_group(
    alloc: Global,
    canon: &Issuer,
    trail: &Issuer,
    frame: &mut Frame,
) -> Result<At, NoMemory>
    requires { IsAt trail.now.list frame.old At.Group }
    ensures leads { IfOk result (λ at. Leads canon.now.list trail.now.list frame.old At.Group nothing trail.now.list frame.new at) }
    ensures keeps { OnOk result (Keeps canon.now.list trail.now.list frame.old trail.now.list frame.new) }
    ensures owes { IfOk result (λ at. owed frame.new at ≤ owed frame.old At.Group) }
{
    let Some(group) = frame.groups.next() else {
        return Ok(At::Return);
    };
    frame.text.extend_from_slice(group.hash.as_bytes())?;
    frame.arrangement = Arrangement::first(alloc, group.nodes.as_slice())?;
    frame.mark = trail.mark().length;
    frame.paths.forget();
    frame.on_trail = false;
    Ok(At::Begin)
}

// Puts the issuer of the chosen path on the trail.
fn take_chosen(trail: &mut Issuer, frame: &Frame) -> Result<(), NoMemory>
    requires mark { frame.now.mark ≤ length trail.old.list }
    requires nodes { frame.now.on_trail ≡ false → All (λ n. n < u32.MAX) frame.now.tail.items }
    requires distinct { frame.now.on_trail ≡ false → AreDistinct (take frame.now.mark trail.old.list ++ frame.now.tail.items) }
    ensures list { OnOk result (trail.new.list ≡ chosen_issuer trail.old.list frame.now) }
    ensures prefix { trail.new.prefix ≡ trail.old.prefix }
{
    if frame.on_trail {
        return Ok(());
    }
    trail.undo(Mark { length: frame.mark });
    trail.issue_each(frame.tail.as_slice())?;
    Ok(())
}

// Logs the tie of each other permutation with the one whose issuer is the trail.
fn log_others(
    alloc: Global,
    dataset: &Dataset,
    canon: &Issuer,
    trail: &Issuer,
    mark: u32,
    others: &[NodeList],
    ties: &mut TieLog,
) -> Result<(), NoMemory>
    requires lists { All (TailMayBeChecked (dataset_of dataset.now) canon.now.list mark trail.now.list) others.now }
    requires room { ties.old.total + length others.now ≤ u64.MAX }
    ensures logs { OnOk result (LogsInTurn (dataset_of dataset.now) (map (tie_with canon.now.list mark trail.now.list) others.now) ties.old ties.new) }
    ensures most { ties.new.total ≤ ties.old.total + length others.now }
    ensures front { OnErr result (LogsFront (LogsInTurn (dataset_of dataset.now)) (map (tie_with canon.now.list mark trail.now.list) others.now) ties.old ties.new) }
{
    for other in others {
        ties.log_tail(alloc, dataset, canon, mark, trail.list(), other.as_slice())?;
    }
    Ok(())
}

// Ends the group: the chosen issuer is on the trail, the chosen path in the data, and the ties of the
// other permutations with that path in the log.
pub(crate) fn close(
    alloc: Global,
    dataset: &Dataset,
    canon: &Issuer,
    trail: &mut Issuer,
    frame: &mut Frame,
    ties: &mut TieLog,
) -> Result<At, NoMemory>
    requires at { IsAt trail.old.list frame.old At.Close }
    requires known { IsKnown (dataset_of dataset.now) canon.now.list trail.old.list frame.old }
    requires fits { length dataset.now.labels ≤ u32.MAX }
    requires ties { MayBeLogged (dataset_of dataset.now) (ties_at canon.now.list trail.old.list frame.old At.Close) }
    requires room { ties.old.total + owed frame.old At.Close ≤ u64.MAX }
    ensures leads { IfOk result (λ at. Leads canon.now.list trail.old.list frame.old At.Close (logged (ties_at canon.now.list trail.old.list frame.old At.Close)) trail.new.list frame.new at) }
    ensures keeps { OnOk result (Keeps canon.now.list trail.old.list frame.old trail.new.list frame.new) }
    ensures prefix { trail.new.prefix ≡ trail.old.prefix }
    ensures logs { OnOk result (LogsInTurn (dataset_of dataset.now) (ties_at canon.now.list trail.old.list frame.old At.Close) ties.old ties.new) }
    ensures owes { IfOk result (λ at. ties.new.total + owed frame.new at ≤ ties.old.total + owed frame.old At.Close) }
    ensures most { ties.new.total ≤ ties.old.total + owed frame.old At.Close }
    ensures front { OnErr result (LogsFront (LogsInTurn (dataset_of dataset.now)) (ties_at canon.now.list trail.old.list frame.old At.Close) ties.old ties.new) }
{
    if !frame.paths.has_choice() {
        trail.undo(Mark { length: frame.mark });
        return Ok(At::Group);
    }
    take_chosen(trail, frame)?;
    log_others(
        alloc,
        dataset,
        canon,
        trail,
        frame.mark,
        frame.others.as_slice(),
        ties,
    )?;
    frame.text.extend_from_slice(frame.paths.chosen())?;
    frame.others.clear();
    frame.paths.forget();
    Ok(At::Group)
}
