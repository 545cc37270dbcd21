//! What a sentence of TriG (RDF 1.1 TriG) says, and what each of its tokens stands for by itself.
#![tactic(auto)]

pub use leaf::Leaf;
pub use leaves::leaf_of;

mod leaf;
mod leaves;
mod names;
mod strings;
