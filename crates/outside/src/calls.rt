//! Which calls of a shelf or sink in memory fail.

ghost use Rattle.std.specs.Prelude.{◌≡◌, ◌≤◌, ◌↔◌, IsTrue};
ghost use Rattle.rdf_terms.specs.Lists.{In};
ghost use Rattle.outside.specs.Faults.{one_more};
ghost use Rattle.outside.specs.FaultPlan.{FaultPlan, unused, FailsNext, after_call};

use std::marker::Model;

// Counts the calls of a shelf or sink in memory from 0, and knows which of them are to fail.
// Both counts stay at the last number of 64 bits.
#[derive(Drop)]
pub(crate) struct Calls {
    failing: Vec<u64>,
    calls: u64,
    faults: u64,
}

impl Model for Calls {
    ghost Value = { FaultPlan };

    ghost view = { λ c. record { failing = c.failing.items; calls = c.calls; faults = c.faults } };
}

fn is_among(number: u64, numbers: &[u64]) -> bool
    ensures { IsTrue result ↔ In number numbers.now }
{
    numbers.contains(&number)
}

impl Calls {
    pub(crate) fn new(failing: Vec<u64>) -> Self
        ensures { result ≡ unused failing.items }
    {
        Calls {
            failing,
            calls: 0,
            faults: 0,
        }
    }

    // Counts a call, and says whether it is told to fail.
    pub(crate) fn count(&mut self) -> bool
        ensures fails { IsTrue result ↔ FailsNext self.old }
        ensures counted { self.new ≡ after_call self.old }
    {
        let call = self.calls;
        self.calls = call.saturating_add(1);
        is_among(call, &self.failing)
    }

    // Counts that the last call failed.
    pub(crate) fn fail(&mut self)
        ensures counted { self.new ≡ record self.old { faults = one_more self.old.faults } }
        ensures never_fell { self.old.faults ≤ self.new.faults }
    {
        self.faults = self.faults.saturating_add(1);
    }
}
