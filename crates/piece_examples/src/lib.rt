//! Worked examples of documents that come in pieces.
#![tactic(auto)]

#[cfg(test)]
mod pieces;
