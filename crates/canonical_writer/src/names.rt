//! What names blank nodes.

ghost use Rattle.std.specs.Prelude.{◌≡◌, ◌++◌, ℕ, List, Option, OnOk, OnErr, IsSome, codes};
ghost use Rattle.rdf_terms.specs.CanonicalForm.{name_or_nothing};
ghost use Rattle.rdf_terms.specs.Numeral.{numeral};
ghost use Rattle.canonical_writer.specs.Names.{degree_name, numbered_name};

use itoa::Buffer;
use rdf_terms::NoMemory;

/// Names for blank nodes, without the `_:`. A node may have none.
pub trait Names {
    ghost name: { Self → ℕ → Option (List ℕ) };

    /// Appends `_:` and the name of the node. After an `Err` the bytes are as before.
    fn push_name(&self, node: u32, out: &mut Vec<u8>) -> Result<(), NoMemory>
        requires { IsSome (name self.now node) }
        ensures ok { OnOk result (out.new.items ≡ out.old.items ++ (codes "_:" ++ name_or_nothing (name self.now node))) }
        ensures err { OnErr result (out.new.items ≡ out.old.items) };
}

/// The names by which the quads of one node are hashed (RDF Dataset Canonicalization, section 4.6):
/// this node is `a`, and all others are `z`.
#[derive(Clone, Copy, Debug)]
pub struct DegreeNames {
    pub node: u32,
}

impl Names for DegreeNames {
    ghost name = { λ names. degree_name names.node };

    fn push_name(&self, node: u32, out: &mut Vec<u8>) -> Result<(), NoMemory> {
        let name = if node == self.node { b"_:a" } else { b"_:z" };
        out.extend_from_slice(name)?;
        Ok(())
    }
}

/// Names each node by `e` and its number.
#[derive(Clone, Copy, Debug)]
pub struct NumberNames;

impl Names for NumberNames {
    ghost name = { λ _. numbered_name };

    fn push_name(&self, node: u32, out: &mut Vec<u8>) -> Result<(), NoMemory> {
        push_numbered(out, b"_:e", node)
    }
}

/// Appends a prefix and the numeral of a number. After an `Err` the bytes are as before.
pub fn push_numbered(out: &mut Vec<u8>, prefix: &[u8], number: u32) -> Result<(), NoMemory>
    ensures ok { OnOk result (out.new.items ≡ out.old.items ++ (prefix.now ++ numeral number)) }
    ensures err { OnErr result (out.new.items ≡ out.old.items) }
{
    let mut buffer = Buffer::new();
    let digits = buffer.format(number).as_bytes();
    out.reserve(prefix.len() + digits.len())?;
    out.extend_from_slice(prefix).unwrap();
    out.extend_from_slice(digits).unwrap();
    Ok(())
}
