//! What a comparison answers.

use ndegree_hash::Tie;
use rdf_terms::Bijection;

/// Whether two datasets are isomorphic (RDF 1.1 Concepts, section 4.1).
#[derive(Debug, Drop)]
pub enum Verdict {
    /// They are, by this map of the nodes of the first to those of the second.
    Same(Bijection),
    /// They are not.
    Different,
    /// Their canonical forms differ, and so may other forms that the standard allows: each run met a
    /// tie that is not joined. These are the first of each.
    Undecided(Tie, Tie),
}
