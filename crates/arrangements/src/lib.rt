//! The arrangements of a bag of nodes, one after the other.
#![tactic(auto)]

pub use arrangement::Arrangement;

mod arrangement;
pub mod laws;
