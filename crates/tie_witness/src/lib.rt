//! The check of a tie: whether the exchange of its two lists is a symmetry of the dataset.
#![tactic(auto)]

pub use check::{tail_witness, witness};

mod carry;
mod check;
mod moved;
