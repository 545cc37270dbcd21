//! The issuer of identifiers for blank nodes.
#![tactic(auto)]

pub use issuer::{Issuer, Mark};

mod issuer;
