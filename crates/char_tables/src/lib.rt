//! The classes of characters that the grammars of N-Quads and TriG are written in.
#![tactic(auto)]

pub use classes::{is_hex, is_iri_char, is_pn, is_pn_base, is_pn_byte, is_pn_u_nq, is_pn_u_ttl};
pub use lanes::iri_len;
pub use ranges::Ranges;

mod classes;
mod lanes;
mod ranges;
