//! The first-degree hashes of a dataset's nodes (RDF Dataset Canonicalization, section 4.6).
#![tactic(auto)]

pub use table::FirstTable;

mod digest;
mod node_hash;
mod table;
