//! The nodes that an exchange moves, each with where it goes.

ghost use Rattle.std.specs.Prelude.{◌≡◌, ◌++◌, length, IfOk, OnOk};
ghost use Rattle.canon_model.specs.Ties.{exchange};
ghost use Rattle.tie_witness.specs.Moving.{moved_by_place, AreMovedBy};
ghost use Rattle.tie_witness.specs.Tails.{AreTails, IsSameUnless, TellsExchange};
ghost use Rattle.tie_witness.specs.Witness.{AscendByFirst};

use rdf_terms::NoMemory;
use std::alloc::Global;

// Appends the pairs of the nodes at one place of the two lists, where they differ.
fn push_moved(pairs: &mut Vec<(u32, u32)>, from: &[u32], to: &[u32]) -> Result<(), NoMemory>
    requires { length from.now ≡ length to.now }
    ensures { OnOk result (pairs.new.items ≡ pairs.old.items ++ moved_by_place from.now to.now) }
{
    for (place, node) in from.iter().enumerate() {
        let other = to[place];
        if *node != other {
            pairs.push((*node, other))?;
        }
    }
    Ok(())
}

// Whether the lists have no node in common; where they are empty, they have the same nodes.
fn are_apart(left: &[u32], right: &[u32]) -> bool
    requires { AreTails left.now right.now }
    ensures { IsSameUnless result left.now right.now }
{
    match right.first() {
        Some(node) => !left.contains(node),
        None => false,
    }
}

// The pairs of the nodes that the exchange of the lists moves.
fn exchanged_pairs(alloc: Global, left: &[u32], right: &[u32]) -> Result<Vec<(u32, u32)>, NoMemory>
    requires { AreTails left.now right.now }
    ensures { IfOk result (λ pairs. TellsExchange left.now right.now pairs.items) }
{
    let mut pairs = Vec::new(alloc);
    push_moved(&mut pairs, left, right)?;
    if !are_apart(left, right) {
        return Ok(pairs);
    }
    push_moved(&mut pairs, right, left)?;
    Ok(pairs)
}

// The pairs of the nodes that the exchange of the lists moves, ascending by the first.
pub(crate) fn moved_pairs(
    alloc: Global,
    left: &[u32],
    right: &[u32],
) -> Result<Vec<(u32, u32)>, NoMemory>
    requires { AreTails left.now right.now }
    ensures moved { IfOk result (λ pairs. AreMovedBy (exchange left.now right.now) pairs.items) }
    ensures ascend { IfOk result (λ pairs. AscendByFirst pairs.items) }
{
    let mut pairs = exchanged_pairs(alloc, left, right)?;
    pairs.sort_unstable_by_key(|pair| pair.0);
    Ok(pairs)
}
