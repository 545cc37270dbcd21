//! Reads TriG (RDF 1.1 TriG): the quads of a document, or why it is none.
#![tactic(auto)]

pub use fault::TrigFault;
pub use read::read_trig;
pub use trig_builder::MAX_QUADS;

mod fault;
pub mod laws;
mod line;
mod read;
mod read_text;
mod reading;
