//! The hash of a text, by the profile of a run (RDF Dataset Canonicalization, section 4.2).
#![tactic(auto)]

pub use hash::{hash_of_pieces, hash_of_text};

mod digest;
mod hash;
mod hexadecimal;
