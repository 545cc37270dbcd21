//! A lean form, and why there is none.
ghost use Rattle.std.specs.Prelude.{◌≡◌};

use rdf_terms::{NoMemory, NodeList, Quad, QuadList};
use std::error::Error;
use std::fmt;

/// A lean graph, and an endomorphism of the graph that was given onto it.
#[derive(Debug, Drop)]
pub struct LeanForm {
    /// The triples of the lean graph, by term numbers of the graph that was given, ascending.
    pub quads: QuadList,
    /// For each node the number of the term that it is mapped to.
    pub map: NodeList,
}

/// Why there is no lean form.
#[derive(Debug, Drop)]
pub enum LeanStop {
    /// A quad has a graph name: this is the first one.
    NotOneGraph { quad: Quad },
    /// A component of this image of the graph has more partial maps than the limit.
    SearchLimit { image: QuadList },
    NoMemory,
}

impl From<NoMemory> for LeanStop {
    ghost use Rattle.lean_search.specs.declared.form.LeanStop.TheVariants.{NoMemory as OutOfMemory};

    ghost from_gives = { λ _ stop. stop ≡ OutOfMemory };

    fn from(_: NoMemory) -> Self {
        LeanStop::NoMemory
    }
}

impl fmt::Display for LeanStop {
    fn fmt<W: fmt::Write>(&self, f: &mut fmt::Formatter<W>) -> fmt::Result {
        match self {
            LeanStop::NotOneGraph { .. } => f.write_str("a quad has a graph name"),
            LeanStop::SearchLimit { .. } => {
                f.write_str("a component has more partial maps than the limit")
            }
            LeanStop::NoMemory => f.write_str("out of memory"),
        }
    }
}

impl Error for LeanStop {}
