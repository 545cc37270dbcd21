//! The order of all nodes that begins with the lists of a tie.
ghost use Rattle.std.specs.Prelude.{◌≡◌, ◌<◌, ◌≤◌, length, All, IfOk, OnOk};
ghost use Rattle.rdf_terms.specs.Lists.{numbers_below};
ghost use Rattle.canonical_writer.specs.Determined.{ListsNodes};
ghost use Rattle.canon_model.specs.Issuer.{issue_each};
ghost use Rattle.other_output.specs.Along.{nodes_along};

use id_issuer::Issuer;
use ndegree_hash::Tie;
use rdf_terms::{NoMemory, Prefix};
use std::alloc::Global;

// Issues for these nodes in their order.
fn issue_all(order: &mut Issuer, nodes: &[u32]) -> Result<(), NoMemory>
    requires { All (λ n. n < u32.MAX) nodes.now }
    ensures { OnOk result (order.new.list ≡ issue_each order.old.list nodes.now) }
{
    for node in nodes {
        order.issue(*node)?;
    }
    Ok(())
}

// Issues for the nodes below the number, in their order.
fn issue_below(order: &mut Issuer, count: u32) -> Result<(), NoMemory>
    ensures { OnOk result (order.new.list ≡ issue_each order.old.list (numbers_below count)) }
{
    for node in 0..count {
        order.issue(node)?;
    }
    Ok(())
}

// All nodes, in the order of their new numbers: those of the tie's canonical list, those of its
// right list, and then the others.
pub(crate) fn order_along(alloc: Global, tie: &Tie, count: u32) -> Result<Issuer, NoMemory>
    requires canonical { All (λ n. n < count) tie.now.canon }
    requires right { All (λ n. n < count) tie.now.right }
    ensures order { IfOk result (λ order. order.list ≡ nodes_along count tie.now.canon tie.now.right) }
    ensures all { IfOk result (λ order. ListsNodes count order.list) }
{
    let mut order = Issuer::new(alloc, Prefix::Canonical);
    issue_all(&mut order, tie.canon.as_slice())?;
    issue_all(&mut order, tie.right.as_slice())?;
    issue_below(&mut order, count)?;
    Ok(order)
}
