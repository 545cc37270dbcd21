//! A sink that gathers what is put.

ghost use Rattle.std.specs.Prelude.{◌≡◌, Some, []};

use outside::{Failed, Sink};
use std::alloc::Global;

/// Gathers the bytes that are put. A call fails only where memory is refused for them.
#[derive(Drop)]
pub struct GatheringSink {
    bytes: Vec<u8>,
    faults: u64,
}

impl GatheringSink {
    /// A sink that was put nothing yet. Takes no memory.
    pub fn new(alloc: Global) -> Self
        ensures taken { ⟦<GatheringSink as Sink>⟧.taken result ≡ Some [] }
        ensures no_faults { ⟦<GatheringSink as Sink>⟧.faults result ≡ 0 }
    {
        GatheringSink {
            bytes: Vec::new(alloc),
            faults: 0,
        }
    }

    /// What was put.
    pub fn bytes(&self) -> &[u8]
        ensures { ⟦<GatheringSink as Sink>⟧.taken self.now ≡ Some result.now }
    {
        &self.bytes
    }
}

impl Sink for GatheringSink {
    ghost taken = { λ s. Some s.bytes.items };

    ghost faults = { λ s. s.faults };

    fn put(&mut self, bytes: &[u8]) -> Result<usize, Failed> {
        match self.bytes.extend_from_slice(bytes) {
            Ok(()) => Ok(bytes.len()),
            Err(_) => {
                self.faults = self.faults.saturating_add(1);
                Err(Failed)
            }
        }
    }
}
