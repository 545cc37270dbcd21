//! Laws of the definitions.
ghost use Rattle.rdf_terms.specs.Terms.{Statement};
ghost use Rattle.rdf_terms.specs.FirstPlaces.{AddsEachOnce};
ghost use Rattle.rdf_terms.specs.declared.term.Label.{Label};

/// Statements, or labels, that are added in turn where they are lacking are each there once, in the
/// order of first appearance, and no other list is so.
pub fn adds_each_once()
    ensures statements { AddsEachOnce Statement }
    ensures labels { AddsEachOnce Label }
{}
