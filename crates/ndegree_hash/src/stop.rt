//! Why a run stopped.

use rdf_terms::NoMemory;
use std::error::Error;
use std::fmt;

/// Why a run stopped.
#[derive(Clone, Copy, Debug, PartialEq, Eq)]
pub enum Stop {
    /// It has more units than its limit.
    WorkLimit,
    NoMemory,
}

impl From<NoMemory> for Stop {
    ghost use Rattle.std.specs.Prelude.{◌≡◌};
    ghost use Rattle.ndegree_hash.specs.declared.stop.Stop.TheVariants.{NoMemory as Memory};

    ghost from_gives = { λ _ e. e ≡ Memory };

    fn from(_: NoMemory) -> Self {
        Stop::NoMemory
    }
}

impl fmt::Display for Stop {
    fn fmt<W: fmt::Write>(&self, f: &mut fmt::Formatter<W>) -> fmt::Result {
        match self {
            Stop::WorkLimit => f.write_str("more units of work than the limit"),
            Stop::NoMemory => f.write_str("out of memory"),
        }
    }
}

impl Error for Stop {}
