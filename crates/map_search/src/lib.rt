//! A search for a map of places to numbers, one place after the other, and the index of a graph's
//! triples from which the numbers that a place may have are read.
#![tactic(auto)]

pub use index::Index;
pub use marks::Marks;
pub use rows::{Condition, End, Lookup, next_in_row};
pub use search::{Ending, Problem, find_map};

mod index;
pub mod laws;
mod marks;
mod rows;
mod search;
mod table;
