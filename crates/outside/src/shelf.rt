//! What gives the bytes of files.

ghost use Rattle.std.specs.Prelude.{◌≡◌, ℕ, ◌≤◌, List, Option, None, length, IfOk, OnOk, OnErr};
ghost use Rattle.outside.specs.Faults.{HasCause};
ghost use Rattle.outside.specs.Reads.{Takes};

use std::error::Error;
use std::fmt;

/// A call on the outside failed.
#[derive(Clone, Copy, Debug, PartialEq, Eq)]
pub struct Failed;

impl fmt::Display for Failed {
    fn fmt<W: fmt::Write>(&self, f: &mut fmt::Formatter<W>) -> fmt::Result {
        f.write_str("a call on the outside failed")
    }
}

impl Error for Failed {}

/// Files by name, of which one at a time is started and then read from its front.
pub trait Shelf {
    /// The bytes of the file with this name, where they are told.
    ghost told: { Self → List ℕ → Option (List ℕ) };

    /// The bytes of the started file that were not given yet, where they are told.
    ghost rest: { Self → Option (List ℕ) };

    /// Whether `next` may be called with this name. It holds of no name before the first `start`.
    ghost ready: { Self → List ℕ → Type 0 };

    /// How often a call with this name has failed, up to the last number of 64 bits.
    ghost faults: { Self → List ℕ → ℕ };

    /// Begins a file.
    fn start(&mut self, name: &str) -> Result<(), Failed>
        ensures told { (other : List ℕ) → told self.new other ≡ told self.old other }
        ensures ready { OnOk result (ready self.new name.now) }
        ensures rest { OnOk result (rest self.new ≡ told self.old name.now) }
        ensures none_ready { OnErr result ((other : List ℕ) → ¬ (ready self.new other)) }
        ensures rest_untold { OnErr result (rest self.new ≡ None) }
        ensures cause { HasCause (faults self.old name.now) (faults self.new name.now) result }
        ensures never_fell { (other : List ℕ) → faults self.old other ≤ faults self.new other };

    /// Puts the next bytes of the started file at the front of the buffer, and says how many.
    /// For a buffer with room, none come only at the end of the file.
    fn next(&mut self, name: &str, buf: &mut [u8]) -> Result<usize, Failed>
        requires { ready self.old name.now }
        ensures told { (other : List ℕ) → told self.new other ≡ told self.old other }
        ensures ready { OnOk result (ready self.new name.now) }
        ensures bound { IfOk result (λ n. n ≤ length buf.new) }
        ensures bytes { Takes (rest self.old) (rest self.new) result buf.new }
        ensures none_ready { OnErr result ((other : List ℕ) → ¬ (ready self.new other)) }
        ensures cause { HasCause (faults self.old name.now) (faults self.new name.now) result }
        ensures never_fell { (other : List ℕ) → faults self.old other ≤ faults self.new other };
}
