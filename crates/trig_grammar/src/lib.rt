//! The grammar of TriG (RDF 1.1 TriG, section 4.5), its table, and the machine that takes tokens by it.
#![tactic(auto)]

pub use ll1::Ll1;
pub use nonterminal::Nonterminal;
pub use parser::Parser;
pub use symbol::Symbol;

pub mod laws;
mod ll1;
mod machine;
mod nonterminal;
mod parser;
mod right_sides;
mod symbol;
mod table;
