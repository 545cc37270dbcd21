//! IRI references (RFC 3986): whether a text has a scheme, its five parts, and its resolution against a base.
#![tactic(auto)]

pub use base::Base;
pub use parts::{Parts, split};
pub use resolution::resolve;
pub use scheme::has_scheme;

mod base;
mod delimiters;
mod dots;
mod parts;
mod resolution;
mod scheme;
