//! Another output that the standard allows for a dataset, where one is known.
#![tactic(auto)]

pub use other::{Openness, other_form};

pub mod laws;
mod order;
mod other;
mod renumbering;
