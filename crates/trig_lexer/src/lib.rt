//! Cuts a text of TriG (RDF 1.1 TriG, section 4) into its tokens, one call for each.
#![tactic(auto)]

pub use kind::Kind;
pub use token::{Token, next_token, token_start};

mod all_kinds;
mod anon;
mod at_words;
mod found;
mod kind;
pub mod laws;
mod longer;
mod marks;
mod name;
mod number;
mod parts;
mod quoted;
mod terminal;
mod token;
mod white_space;
mod words;
