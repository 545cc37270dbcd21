//! A sink in memory.

ghost use Rattle.std.specs.Prelude.{◌≡◌, ◌↔◌, ◌<◌, ◌≤◌, [], length, Some, IfOk, OnOk, OnErr, IsErr, vec_len, vec_capacity};
ghost use Rattle.outside.specs.Faults.{HasCause};
ghost use Rattle.outside.specs.FaultPlan.{unused};
ghost use Rattle.outside.specs.MemorySink.{MemorySink, PutFails, amount_taken, after_put, after_failed_put};

use crate::calls::Calls;
use crate::{Failed, Sink};
use rdf_terms::NoMemory;
use std::alloc::Global;
use std::marker::Model;

/// A sink in memory. It fails at the calls that it is told, and where its room is used up.
#[derive(Drop)]
pub struct MemSink {
    bytes: Vec<u8>,
    room: usize,
    piece: usize,
    calls: Calls,
}

impl Model for MemSink {
    ghost Value = { MemorySink };

    ghost view = { λ s. record { taken = s.bytes.items; room = s.room; piece = s.piece; plan = s.calls } };

    ghost invariant = { λ s. (0 < s.piece) × (vec_len s.bytes ≤ s.room) × (s.room ≤ vec_capacity s.bytes) };
}

impl MemSink {
    /// A sink with room for so many bytes, which takes at most `piece` of them in a call. The calls are counted from 0,
    /// and those with a number in `failing` fail.
    pub fn new(
        alloc: Global,
        room: usize,
        piece: usize,
        failing: Vec<u64>,
    ) -> Result<Self, NoMemory>
        requires { 1 ≤ piece }
        ensures { IfOk result (λ sink. sink ≡ record { taken = []; room = room; piece = piece; plan = unused failing.items }) }
    {
        Ok(MemSink {
            bytes: Vec::with_capacity(alloc, room)?,
            room,
            piece,
            calls: Calls::new(failing),
        })
    }

    /// What was taken.
    pub fn bytes(&self) -> &[u8]
        ensures { result.now ≡ self.now.taken }
    {
        &self.bytes
    }
}

impl Sink for MemSink {
    ghost taken = { λ s. Some s.taken };

    ghost faults = { λ s. s.plan.faults };

    fn put(&mut self, bytes: &[u8]) -> Result<usize, Failed>
        ensures fails { IsErr result ↔ PutFails self.old bytes.now }
        ensures amount { IfOk result (λ n. n ≡ amount_taken self.old bytes.now) }
        ensures ok { OnOk result (self.new ≡ after_put self.old bytes.now) }
        ensures err { OnErr result (self.new ≡ after_failed_put self.old) }
        ensures some { IfOk result (λ n. 0 < length bytes.now → 0 < n) }
        ensures cause { HasCause self.old.plan.faults self.new.plan.faults result }
    {
        let left = self.room - self.bytes.len();
        if self.calls.count() || (left == 0 && !bytes.is_empty()) {
            self.calls.fail();
            return Err(Failed);
        }
        let amount = self.piece.min(left).min(bytes.len());
        self.bytes.extend_from_slice(&bytes[..amount]).unwrap();
        Ok(amount)
    }
}
