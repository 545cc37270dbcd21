//! The quads of a dataset in order, and the quads of each of its nodes.
#![tactic(auto)]

pub use dataset::Dataset;

mod by_subject;
mod counting_sort;
mod dataset;
mod mention;
mod mentions;
mod node_index;
mod node_terms;
mod sums;
mod term_nodes;
