//! Terms with names for their blank nodes.

use rdf_terms::TermTable;

// Terms by number, and names for the blank nodes among them.
#[derive(Drop)]
pub(crate) struct NamedTerms<'a, N> {
    pub(crate) terms: &'a TermTable,
    pub(crate) names: &'a N,
}
