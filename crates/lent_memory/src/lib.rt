//! A shelf that lends bytes of the caller, and a sink that gathers what is put.
#![tactic(auto)]

pub use shelf::LentShelf;
pub use sink::GatheringSink;

mod shelf;
mod sink;
