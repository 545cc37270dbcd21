//! Reads N-Quads (RDF 1.1 N-Quads): the quads of a document, or the first line that is none.
#![tactic(auto)]

pub use fault::ReadFault;
pub use line_reader::LineReader;
pub use read::read_nquads;

mod block;
mod cut;
mod fault;
pub mod laws;
mod line;
mod line_reader;
mod lines;
mod number;
mod quad;
mod read;
mod read_lines;
mod stated_literal;
mod take_piece;
mod terms;
mod white;

/// How many distinct quads a document may have.
pub const MAX_QUADS: u64 = 4_194_304;

/// How many bytes a document may have. Each line and each mention of a label takes one at least, so
/// that numbers of 32 bits suffice for labels.
pub const MOST_BYTES: u64 = 4_294_967_295;
