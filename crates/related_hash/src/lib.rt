//! The blank nodes that share a quad with a node, in groups by their related hashes (RDF Dataset
//! Canonicalization, sections 4.7 and 4.8).
#![tactic(auto)]

pub use group::Group;
pub use grouping::groups;
pub use hashing::related;

mod call;
mod entry;
mod group;
mod grouping;
mod hashing;
mod met;
mod once;
mod open_groups;
