//! Which nodes of a draft stand in a quad, and their numbers among these.

ghost use Rattle.std.specs.Prelude.{IsTrue, EachIndex, if◌then◌else◌, [], ◌∷◌, ◌++◌, OnOk, ◌≡◌, ℕ, Bool, false, ◌<◌, ◌≤◌, ◌^◌, ◌↔◌, map, filter, length, IfOk, true, slice_index_or};
ghost use Rattle.rdf_terms.specs.Lists.{In, AreDistinct, numbers_below};
ghost use Rattle.rdf_terms.specs.Document.{mark_in, with_mark, marked_of};
ghost use Rattle.rdf_terms.specs.declared.term.Term.TheVariants.{Blank};

use crate::{Label, NoMemory, Term, TermTable};
use indexmap::IndexSet;
use std::alloc::Global;
use std::hash::RandomState;

// Marks the node, where the term is one.
fn mark(used: &mut Vec<bool>, term: &Term)
    requires { (n : ℕ) → term.now ≡ Blank n → n < length used.old.items }
    ensures { used.new.items ≡ with_mark used.old.items term.now }
{
    if let Term::Blank(node) = term {
        used[*node as usize] = true;
    }
}

// Which of so many nodes stand in the table.
pub(crate) fn used_nodes(
    alloc: Global,
    terms: &TermTable,
    nodes: usize,
) -> Result<Vec<bool>, NoMemory>
    requires { (n : ℕ) → In (Blank n) terms.now → n < nodes }
    ensures len { IfOk result (λ v. length v.items ≡ nodes) }
    ensures used { IfOk result (λ v. (n : ℕ) → (mark_in v.items n ≡ true) ↔ In (Blank n) terms.now) }
{
    if nodes == 0 {
        return Ok(Vec::new(alloc));
    }
    let mut used = vec![in alloc; false; nodes]?;
    for entry in terms.entries() {
        mark(&mut used, &entry.term);
    }
    Ok(used)
}

// Whether all are marked.
pub(crate) fn are_all_used(used: &[bool]) -> bool
    ensures { IsTrue result ↔ EachIndex used.now (λ n. mark_in used.now n ≡ true) }
{
    used.iter().all(|is_used| *is_used)
}

// For each node the number of used nodes before it.
pub(crate) fn new_numbers(alloc: Global, used: &[bool]) -> Result<Vec<u32>, NoMemory>
    requires { length used.now < 2 ^ 32 }
    ensures { IfOk result (λ v. v.items ≡ map (λ n. length (filter (mark_in used.now) (numbers_below n))) (numbers_below (length used.now))) }
{
    let mut numbers = Vec::with_capacity(alloc, used.len())?;
    let mut count = 0u32;
    for is_used in used {
        numbers.push(count)?;
        if *is_used {
            count += 1;
        }
    }
    Ok(numbers)
}

// Keeps the label, where its node is used.
fn keep(
    kept: &mut IndexSet<Label, RandomState>,
    label: Label,
    is_used: bool,
) -> Result<(), NoMemory>
    requires { ¬ (In label kept.old.keys) }
    ensures { OnOk result (kept.new.keys ≡ kept.old.keys ++ (if is_used then label ∷ [] else [])) }
{
    if is_used {
        kept.insert(label)?;
    }
    Ok(())
}

// The labels of the used nodes, in their order.
pub(crate) fn used_labels(
    alloc: Global,
    labels: IndexSet<Label, RandomState>,
    used: &[bool],
) -> Result<IndexSet<Label, RandomState>, NoMemory>
    requires len { length used.now ≡ length labels.keys }
    requires distinct { AreDistinct labels.keys }
    ensures { IfOk result (λ s. s.keys ≡ marked_of used.now labels.keys) }
{
    let mut kept = IndexSet::with_hasher(alloc, *labels.hasher());
    for (node, label) in labels.into_iter().enumerate() {
        keep(&mut kept, label, used[node])?;
    }
    Ok(kept)
}
