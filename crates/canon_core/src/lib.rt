//! The Canonicalization Algorithm (RDF Dataset Canonicalization, section 4.4), within a limit of work.
#![tactic(auto)]

pub use canon::Canon;
pub use form::canonicalise;

mod canon;
mod canonical_order;
mod classes;
mod form;
mod hashed_node;
mod issuing;
pub mod laws;
mod node_order;
mod path_result;
mod result_ties;
mod starts;
