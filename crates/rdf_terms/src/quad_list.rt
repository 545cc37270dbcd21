//! Quads that a contract sees as a list.

ghost use Rattle.std.specs.Prelude.{◌≡◌};

use crate::term::Quad;
use std::marker::Model;

/// Quads by the numbers of their terms.
#[derive(Debug, Drop)]
pub struct QuadList {
    quads: Vec<Quad>,
}

impl Model for QuadList {
    ghost use Rattle.std.specs.Prelude.{List};
    ghost use Rattle.rdf_terms.specs.declared.term.Quad.{Quad};

    ghost Value = { List Quad };

    ghost view = { λ l. l.quads.items };
}

impl QuadList {
    /// Takes the vector over, with no copy.
    pub fn new(quads: Vec<Quad>) -> Self
        ensures { result ≡ quads.items }
    {
        QuadList { quads }
    }

    pub fn as_slice(&self) -> &[Quad]
        ensures { result.now ≡ self.now }
    {
        self.quads.as_slice()
    }
}
