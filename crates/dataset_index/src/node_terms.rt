//! The term of each node.

ghost use Rattle.std.specs.Prelude.{◌≡◌, ℕ, ◌<◌, Some, length, slice_get, IfOk};
ghost use Rattle.rdf_terms.specs.declared.term.Term.TheVariants.{Blank};
ghost use Rattle.dataset_index.specs.NodeTerms.{NumbersNodes};

use crate::term_nodes::TermNodes;
use rdf_terms::NoMemory;
use std::alloc::Global;

// The number of each node's term.
pub(crate) fn node_terms(
    alloc: Global,
    terms: &TermNodes<'_>,
    nodes: usize,
) -> Result<Vec<u32>, NoMemory>
    requires { (n k : ℕ) → slice_get terms.now k ≡ Some (Blank n) → n < nodes }
    ensures count { IfOk result (λ numbers. length numbers.items ≡ nodes) }
    ensures numbers { IfOk result (λ numbers. NumbersNodes terms.now numbers.items (length terms.now)) }
{
    let mut numbers = vec![in alloc; 0; nodes]?;
    for number in 0..terms.len() {
        if let Some(node) = terms.node_of(number) {
            numbers[node as usize] = number;
        }
    }
    Ok(numbers)
}
