//! Node numbers that a contract sees as a list.

ghost use Rattle.std.specs.Prelude.{◌≡◌};

use std::marker::Model;

/// Node numbers, in an order of their own.
#[derive(Debug, Drop)]
pub struct NodeList {
    nodes: Vec<u32>,
}

impl Model for NodeList {
    ghost use Rattle.std.specs.Prelude.{ℕ, List};

    ghost Value = { List ℕ };

    ghost view = { λ l. l.nodes.items };
}

impl NodeList {
    /// Takes the vector over, with no copy.
    pub fn new(nodes: Vec<u32>) -> Self
        ensures { result ≡ nodes.items }
    {
        NodeList { nodes }
    }

    pub fn as_slice(&self) -> &[u32]
        ensures { result.now ≡ self.now }
    {
        self.nodes.as_slice()
    }
}
