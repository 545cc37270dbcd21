//! Hash N-Degree Quads (RDF Dataset Canonicalization, section 4.8), without recursion and under a
//! limit of units.
#![tactic(auto)]

pub use budget::Budget;
pub use log::TieLog;
pub use machine::n_degree;
pub use stop::Stop;
pub use tie::Tie;

mod at;
mod budget;
mod frame;
mod group_stack;
mod groups;
mod label;
mod log;
mod machine;
mod paths;
mod permutations;
mod recursion;
mod step;
mod stop;
mod tie;
mod walk;
