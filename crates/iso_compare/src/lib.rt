//! Whether two datasets are isomorphic, and by which map of their blank nodes.
#![tactic(auto)]

pub use comparison::{compare, compare_forms};
pub use verdict::Verdict;

mod comparison;
mod pairing;
mod verdict;
