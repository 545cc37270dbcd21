//! Simple entailment between graphs (RDF 1.1 Semantics, section 5).
#![tactic(auto)]

pub use form::{EntailStop, InstanceMap};
pub use search::entails;

mod any;
mod bound;
mod component;
mod crossing;
mod form;
mod ground;
pub mod laws;
mod rows;
mod search;
mod workspace;
