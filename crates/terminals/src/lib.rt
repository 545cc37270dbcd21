//! The terminals that the grammars of N-Quads and TriG share, read at the front of a text.
#![tactic(auto)]

pub use bodies::{Body, Quote};
pub use delimited::{iriref, short_string};
pub use fronts::{after, first_char};
pub use labels::{Grammar, blank_node_label};
pub use runs::{Spelling, run};
pub use spelled_text::SpelledText;
pub use tags::langtag;

mod bodies;
mod delimited;
mod escapes;
mod fronts;
mod labels;
mod runs;
mod spelled_text;
mod tags;
