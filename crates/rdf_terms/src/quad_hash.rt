//! How a table hashes a quad.

ghost use Rattle.std.specs.Prelude.{◌≡◌};
ghost use Rattle.rdf_terms.specs.QuadHash.{graph_number, number_bytes, fed_quad};
ghost use Rattle.rdf_terms.specs.FedAlike.{quads_fed_alike};

use crate::{MOST_NUMBERS, Quad};
use std::hash::{Hash, Hasher};

// The number of the graph name. The default graph has the number that no term has.
fn graph_number(quad: &Quad) -> u32
    ensures { result ≡ graph_number quad.now.g }
{
    match quad.g {
        Some(number) => number,
        None => MOST_NUMBERS,
    }
}

// The four numbers, in four bytes each, so that a hasher takes them in one write.
fn number_bytes(quad: &Quad) -> [u8; 16]
    ensures { result ≡ number_bytes quad.now }
{
    let mut bytes = [0; 16];
    bytes[..4].copy_from_slice(&quad.s.to_le_bytes());
    bytes[4..8].copy_from_slice(&quad.p.to_le_bytes());
    bytes[8..12].copy_from_slice(&quad.o.to_le_bytes());
    bytes[12..].copy_from_slice(&graph_number(quad).to_le_bytes());
    bytes
}

impl Hash for Quad {
    ghost hash_input = { fed_quad };

    ghost respects_eq = { quads_fed_alike };

    #[inline]
    fn hash<H: Hasher>(&self, state: &mut H) {
        state.write(&number_bytes(self));
    }
}
