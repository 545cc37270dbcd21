//! The document of `load N`, a large dataset from a number.
#![tactic(auto)]

pub use generator::{GREATEST_NUMBER, LEAST_NUMBER, generate};

mod generator;
