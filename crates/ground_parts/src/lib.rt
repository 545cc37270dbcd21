//! Ground quads, which have no blank node, change nothing in a canonical form but their own lines.
#![tactic(auto)]

pub mod laws;
