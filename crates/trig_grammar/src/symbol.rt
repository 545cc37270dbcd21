//! What right sides are made of.
use crate::Nonterminal;
use trig_lexer::Kind;

/// What the right side of a production is made of.
#[derive(Clone, Copy, Debug, PartialEq, Eq)]
pub enum Symbol {
    /// A token of this kind.
    Token(Kind),
    /// Whatever may stand for this part.
    Name(Nonterminal),
}
