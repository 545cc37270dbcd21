//! What a document of TriG (RDF 1.1 TriG) says, told token by token.
#![tactic(auto)]

pub use builder::{Builder, Missing};

mod builder;
mod pending;
mod place;
mod prefixes;
mod say;
mod telling;

/// How many distinct quads a document may have.
pub const MAX_QUADS: u64 = 4_194_304;
