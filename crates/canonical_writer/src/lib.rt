//! Canonical N-Quads: the line of a quad under names for its blank nodes, and the text of several quads.
#![tactic(auto)]

pub use key_numbers::eight_bytes;
pub use line::{push_line, push_term};
pub use lines::Lines;
pub use list_names::ListNames;
pub use names::{DegreeNames, Names, NumberNames, push_numbered};
pub use sorted::write_sorted;

mod escape;
mod key_numbers;
pub mod laws;
mod line;
mod lines;
mod list_names;
mod named_terms;
mod names;
mod room;
mod run_order;
mod runs;
mod sorted;
