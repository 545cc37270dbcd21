//! The document, line by line into one buffer.

ghost use Rattle.std.specs.Prelude.{◌≡◌, ◌≤◌, ◌<◌, ◌*◌, ◌/◌, ◌++◌, length, IfOk, OnOk};
ghost use Rattle.rdf_terms.specs.Lists.{numbers_below};
ghost use Rattle.std.specs.List.{flat_map};
ghost use Rattle.load_document.specs.LoadDocument.{number_line, edge_line, ring_lines, pair_lines, load_document, IsReadable};

use canonical_writer::push_numbered;
use rdf_terms::{Bytes, NoMemory};
use std::alloc::Global;

/// The least number that a document is made from.
pub const LEAST_NUMBER: u32 = 1;

/// The greatest number that a document is made from.
pub const GREATEST_NUMBER: u32 = 400_000;

// A node of the ring, and its number as a string.
fn push_number_line(out: &mut Vec<u8>, node: u32) -> Result<(), NoMemory>
    ensures { OnOk result (out.new.items ≡ out.old.items ++ number_line node) }
{
    push_numbered(out, b"_:n", node)?;
    push_numbered(out, b" <http://e/n> \"", node)?;
    out.extend_from_slice(b"\" .\n")?;
    Ok(())
}

// A node, and the node that it points at, by what stands before their numbers.
fn push_edge_line(
    out: &mut Vec<u8>,
    front: &[u8],
    node: u32,
    middle: &[u8],
    other: u32,
) -> Result<(), NoMemory>
    ensures { OnOk result (out.new.items ≡ out.old.items ++ edge_line front.now node middle.now other) }
{
    push_numbered(out, front, node)?;
    push_numbered(out, middle, other)?;
    out.extend_from_slice(b" .\n")?;
    Ok(())
}

fn push_node_of_ring(out: &mut Vec<u8>, count: u32, node: u32) -> Result<(), NoMemory>
    requires among { node < count }
    requires bound { count ≤ GREATEST_NUMBER }
    ensures { OnOk result (out.new.items ≡ out.old.items ++ ring_lines count node) }
{
    push_number_line(out, node)?;
    push_edge_line(
        out,
        b"_:n",
        node,
        b" <http://e/next> _:n",
        (node + 1) % count,
    )
}

fn push_ring(out: &mut Vec<u8>, count: u32) -> Result<(), NoMemory>
    requires { count ≤ GREATEST_NUMBER }
    ensures { OnOk result (out.new.items ≡ out.old.items ++ flat_map (ring_lines count) (numbers_below count)) }
{
    for node in 0..count {
        push_node_of_ring(out, count, node)?;
    }
    Ok(())
}

fn push_pair(out: &mut Vec<u8>, pair: u32) -> Result<(), NoMemory>
    ensures { OnOk result (out.new.items ≡ out.old.items ++ pair_lines pair) }
{
    push_edge_line(out, b"_:a", pair, b" <http://e/pair> _:b", pair)?;
    push_edge_line(out, b"_:b", pair, b" <http://e/pair> _:a", pair)
}

fn push_pairs(out: &mut Vec<u8>, count: u32) -> Result<(), NoMemory>
    ensures { OnOk result (out.new.items ≡ out.old.items ++ flat_map pair_lines (numbers_below count)) }
{
    for pair in 0..count {
        push_pair(out, pair)?;
    }
    Ok(())
}

/// A document of N-Quads: a ring of `number` nodes that each have their own number, and for each hundred of them a pair
/// of nodes that point at each other. `number` is from `LEAST_NUMBER` to `GREATEST_NUMBER`.
pub fn generate(alloc: Global, number: u32) -> Result<Bytes, NoMemory>
    requires least { LEAST_NUMBER ≤ number }
    requires greatest { number ≤ GREATEST_NUMBER }
    ensures text { IfOk result (λ bytes. bytes ≡ load_document number) }
    ensures short { IfOk result (λ bytes. length bytes ≤ 100 * number) }
    ensures readable { IfOk result IsReadable }
{
    let mut out = Vec::new(alloc);
    push_ring(&mut out, number)?;
    push_pairs(&mut out, number / 100)?;
    Ok(Bytes::new(out))
}
