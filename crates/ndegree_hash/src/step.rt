//! One step of the running call.

ghost use Rattle.std.specs.Prelude.{◌≡◌, ◌≤◌, ◌+◌, length, OnOk, OnErr, IfOk};
ghost use Rattle.canon_model.specs.CountedRun.{logged};
ghost use Rattle.ndegree_hash.specs.FramePlaces.{IsAt, IsWithin};
ghost use Rattle.ndegree_hash.specs.FrameSteps.{Leads};
ghost use Rattle.ndegree_hash.specs.OwedTies.{ties_at, MayBeLogged, owed};
ghost use Rattle.ndegree_hash.specs.KnownNodes.{Keeps, IsKnown};
ghost use Rattle.ndegree_hash.specs.Log.{LogsFront, LogsInTurn};
ghost use Rattle.rdf_terms.specs.Document.{dataset as dataset_of};

use crate::at::At;
use crate::frame::Frame;
use crate::groups::{close, next_group};
use crate::log::TieLog;
use crate::permutations::{choose, next_permutation};
use crate::recursion::next_call;
use dataset_index::Dataset;
use id_issuer::Issuer;
use rdf_terms::{NoMemory, Prefix};
use std::alloc::Global;

// One step of the running frame that spends no unit.
pub(crate) fn step(
    alloc: Global,
    dataset: &Dataset,
    canon: &Issuer,
    trail: &mut Issuer,
    frame: &mut Frame,
    ties: &mut TieLog,
    at: At,
) -> Result<At, NoMemory>
    requires at { IsAt trail.old.list frame.old at }
    requires known { IsKnown (dataset_of dataset.now) canon.now.list trail.old.list frame.old }
    requires fits { length dataset.now.labels ≤ u32.MAX }
    requires canonical { canon.now.prefix ≡ Prefix.Canonical }
    requires temporary { trail.old.prefix ≡ Prefix.Temporary }
    requires kind { IsWithin at }
    requires ties { MayBeLogged (dataset_of dataset.now) (ties_at canon.now.list trail.old.list frame.old at) }
    requires room { ties.old.total + owed frame.old at ≤ u64.MAX }
    ensures leads { IfOk result (λ to. Leads canon.now.list trail.old.list frame.old at (logged (ties_at canon.now.list trail.old.list frame.old at)) trail.new.list frame.new to) }
    ensures keeps { OnOk result (Keeps canon.now.list trail.old.list frame.old trail.new.list frame.new) }
    ensures prefix { trail.new.prefix ≡ trail.old.prefix }
    ensures logs { OnOk result (LogsInTurn (dataset_of dataset.now) (ties_at canon.now.list trail.old.list frame.old at) ties.old ties.new) }
    ensures owes { IfOk result (λ to. ties.new.total + owed frame.new to ≤ ties.old.total + owed frame.old at) }
    ensures most { ties.new.total ≤ ties.old.total + owed frame.old at }
    ensures front { OnErr result (LogsFront (LogsInTurn (dataset_of dataset.now)) (ties_at canon.now.list trail.old.list frame.old at) ties.old ties.new) }
{
    match at {
        At::Group => next_group(alloc, canon, trail, frame),
        At::Recursion => next_call(canon, trail, frame),
        At::Ended => choose(alloc, canon, trail, frame),
        At::Between => next_permutation(alloc, canon, trail, frame),
        At::Close => close(alloc, dataset, canon, trail, frame, ties),
        At::Begin | At::Call(_) | At::Return => unreachable!(),
    }
}
