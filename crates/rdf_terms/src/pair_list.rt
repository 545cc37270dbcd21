//! Pairs of nodes, and a bijection by its pairs.

ghost use Rattle.std.specs.Prelude.{◌≡◌};

use std::marker::Model;

/// Pairs of node numbers.
#[derive(Debug, Drop)]
pub struct PairList {
    pairs: Vec<(u32, u32)>,
}

impl Model for PairList {
    ghost use Rattle.std.specs.Prelude.{ℕ, List};

    ghost Value = { List (ℕ × ℕ) };

    ghost view = { λ l. l.pairs.items };
}

impl PairList {
    /// Takes the vector over, with no copy.
    pub fn new(pairs: Vec<(u32, u32)>) -> Self
        ensures { result ≡ pairs.items }
    {
        PairList { pairs }
    }

    pub fn as_slice(&self) -> &[(u32, u32)]
        ensures { result.now ≡ self.now }
    {
        self.pairs.as_slice()
    }
}

/// A map of nodes to nodes by its pairs, ascending by the first of each.
#[derive(Debug, Drop)]
pub struct Bijection {
    pub pairs: PairList,
}
