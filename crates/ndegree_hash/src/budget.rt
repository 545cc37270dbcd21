//! The limit of a run.

ghost use Rattle.std.specs.Prelude.{◌≡◌, ◌<◌, ◌≤◌, ◌↔◌, IsTrue, false, suc};

use std::marker::Model;

/// A limit of units, and how many were spent. A unit is a call of Hash N-Degree Quads or a
/// permutation that is begun.
#[derive(Debug, Drop)]
pub struct Budget {
    limit: u64,
    spent: u64,
}

impl Model for Budget {
    ghost use Rattle.std.specs.Prelude.{◌≤◌};
    ghost use Rattle.ndegree_hash.specs.Spending.{Spending};

    ghost Value = { Spending };

    ghost view = { λ b. record { limit = b.limit; spent = b.spent } };

    ghost invariant = { λ b. b.spent ≤ b.limit };
}

impl Budget {
    /// Nothing is spent.
    pub fn new(limit: u64) -> Self
        ensures limit { result.limit ≡ limit }
        ensures spent { result.spent ≡ 0 }
    {
        Budget { limit, spent: 0 }
    }

    pub fn limit(&self) -> u64
        ensures { result ≡ self.now.limit }
    {
        self.limit
    }

    pub fn spent(&self) -> u64
        ensures spent { result ≡ self.now.spent }
        ensures within { self.now.spent ≤ self.now.limit }
    {
        self.spent
    }

    /// Spends one unit, where one is left.
    pub fn spend(&mut self) -> bool
        ensures limit { self.new.limit ≡ self.old.limit }
        ensures fits { self.old.limit ≤ u64.MAX }
        ensures one_left { IsTrue result → self.old.spent < self.old.limit }
        ensures spent { IsTrue result → self.new.spent ≡ suc self.old.spent }
        ensures none_left { (result ≡ false) ↔ (self.old.spent ≡ self.old.limit) }
        ensures unchanged { result ≡ false → self.new ≡ self.old }
    {
        if self.spent == self.limit {
            return false;
        }
        self.spent += 1;
        true
    }
}
