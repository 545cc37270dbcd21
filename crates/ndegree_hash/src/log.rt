//! The ties of a run.

ghost use Rattle.std.specs.Prelude.{[], ◌≡◌, ◌<◌, ◌≤◌, None, Some, length, IfOk, OnOk, OnErr, MatchOption};
ghost use Rattle.rdf_terms.specs.Document.{dataset as dataset_of};
ghost use Rattle.ndegree_hash.specs.Log.{IsLog, Logs};
ghost use Rattle.tie_witness.specs.Witness.{MayBeChecked, TailMayBeChecked, right_of};

use crate::tie::Tie;
use dataset_index::Dataset;
use id_issuer::Issuer;
use rdf_terms::{NoMemory, NodeList};
use std::alloc::Global;
use std::marker::Model;
use tie_witness::tail_witness;

/// How many ties were logged, how many of them are joined, and the first that is not.
#[derive(Debug, Drop)]
pub struct TieLog {
    total: u64,
    joined: u64,
    unsettled: Option<Tie>,
}

impl Model for TieLog {
    ghost use Rattle.ndegree_hash.specs.Log.{LoggedTies, IsLog};

    ghost Value = { LoggedTies };

    ghost view = { λ l. record { total = l.total; joined = l.joined; unsettled = l.unsettled } };

    ghost invariant = { λ l. IsLog (record { total = l.total; joined = l.joined; unsettled = l.unsettled }) };
}

impl TieLog {
    /// A log of no tie.
    pub fn new() -> Self
        ensures total { result.total ≡ 0 }
        ensures joined { result.joined ≡ 0 }
        ensures unsettled { result.unsettled ≡ None }
    {
        TieLog {
            total: 0,
            joined: 0,
            unsettled: None,
        }
    }

    /// How many ties were logged.
    pub fn total(&self) -> u64
        ensures total { result ≡ self.now.total }
        ensures log { IsLog self.now }
    {
        self.total
    }

    /// How many of them are joined.
    pub fn joined(&self) -> u64
        ensures joined { result ≡ self.now.joined }
        ensures log { IsLog self.now }
    {
        self.joined
    }

    /// The first that is not.
    pub fn unsettled(&self) -> Option<&Tie>
        ensures unsettled { MatchOption result (self.now.unsettled ≡ None) (λ tie. self.now.unsettled ≡ Some tie.now) }
        ensures log { IsLog self.now }
    {
        self.unsettled.as_ref()
    }

    /// Gives the first that is not joined away.
    pub fn into_unsettled(self) -> Option<Tie>
        ensures unsettled { result ≡ self.unsettled }
        ensures log { IsLog self }
    {
        self.unsettled
    }

    /// Logs a tie. After an `Err` the log is as before.
    pub fn log(
        &mut self,
        alloc: Global,
        dataset: &Dataset,
        canon: &Issuer,
        passed: u32,
        left: &[u32],
        right: &[u32],
    ) -> Result<(), NoMemory>
        requires lists { MayBeChecked (dataset_of dataset.now) canon.now.list passed left.now right.now }
        requires room { self.old.total < u64.MAX }
        ensures logged { OnOk result (Logs (dataset_of dataset.now) (record { canon = canon.now.list; passed = passed; left = left.now; right = right.now }) self.old self.new) }
        ensures err { OnErr result (self.new ≡ self.old) }
    {
        let tail = &right[passed as usize..];
        self.log_tail(alloc, dataset, canon, passed, left, tail)?;
        Ok(())
    }

    // The same, where of the right list what stands behind the nodes passed in is at hand.
    pub(crate) fn log_tail(
        &mut self,
        alloc: Global,
        dataset: &Dataset,
        canon: &Issuer,
        passed: u32,
        left: &[u32],
        tail: &[u32],
    ) -> Result<(), NoMemory>
        requires lists { TailMayBeChecked (dataset_of dataset.now) canon.now.list passed left.now tail.now }
        requires room { self.old.total < u64.MAX }
        ensures logged { OnOk result (Logs (dataset_of dataset.now) (record { canon = canon.now.list; passed = passed; left = left.now; right = right_of passed left.now tail.now }) self.old self.new) }
        ensures err { OnErr result (self.new ≡ self.old) }
    {
        let found = tail_witness(alloc, dataset, canon, passed, left, tail)?;
        if found.is_some() {
            self.joined += 1;
            self.total += 1;
            return Ok(());
        }
        if self.unsettled.is_none() {
            let tie = carried(alloc, canon, passed, left, tail)?;
            self.unsettled = Some(tie);
        }
        self.total += 1;
        Ok(())
    }
}

// The tie of these lists.
fn carried(
    alloc: Global,
    canon: &Issuer,
    passed: u32,
    left: &[u32],
    tail: &[u32],
) -> Result<Tie, NoMemory>
    requires { passed ≤ length left.now }
    ensures { IfOk result (λ t. t ≡ record { canon = canon.now.list; passed = passed; left = left.now; right = right_of passed left.now tail.now }) }
{
    let mut right = left[..passed as usize].to_vec(alloc)?;
    right.extend_from_slice(tail)?;
    Ok(Tie {
        canon: NodeList::new(canon.list().to_vec(alloc)?),
        passed,
        left: NodeList::new(left.to_vec(alloc)?),
        right: NodeList::new(right),
    })
}
