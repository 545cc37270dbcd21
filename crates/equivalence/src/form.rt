//! Why it is not said whether two graphs are equivalent.
ghost use Rattle.std.specs.Prelude.{◌≡◌};

use rdf_terms::{NoMemory, Quad, QuadList};
use std::error::Error;
use std::fmt;

/// Why it is not said whether two graphs, the first with number 0 and the second with number 1, are
/// equivalent.
#[derive(Debug, Drop)]
pub enum EquivStop {
    /// A quad of the first graph (file 0), else of the second (file 1), has a graph name: this is the
    /// first one.
    NotOneGraph { file: u8, quad: Quad },
    /// A component of this image of the graph has more partial maps than the limit.
    SearchLimit { file: u8, image: QuadList },
    /// The component of the graph with this least node has more partial maps into the other graph than
    /// the limit.
    EntailLimit { file: u8, node: u32 },
    NoMemory,
}

impl From<NoMemory> for EquivStop {
    ghost use Rattle.equivalence.specs.declared.form.EquivStop.TheVariants.{NoMemory as OutOfMemory};

    ghost from_gives = { λ _ stop. stop ≡ OutOfMemory };

    fn from(_: NoMemory) -> Self {
        EquivStop::NoMemory
    }
}

impl fmt::Display for EquivStop {
    fn fmt<W: fmt::Write>(&self, f: &mut fmt::Formatter<W>) -> fmt::Result {
        match self {
            EquivStop::NotOneGraph { .. } => f.write_str("a quad has a graph name"),
            EquivStop::SearchLimit { .. } | EquivStop::EntailLimit { .. } => {
                f.write_str("a component has more partial maps than the limit")
            }
            EquivStop::NoMemory => f.write_str("out of memory"),
        }
    }
}

impl Error for EquivStop {}
