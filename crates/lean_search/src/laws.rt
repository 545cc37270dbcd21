//! The steps of the search of a whole graph. Each law is a contract, and the functions do nothing.
ghost use Rattle.lean_search.specs.Outer.{SearchBegins, SearchEnds, SearchGoesOn, SearchSettles, SearchShrinks};

/// The search begins with the graph.
pub fn search_begins()
    ensures { SearchBegins }
{}

/// A map of a component shrinks the graph, and what was settled elsewhere stays settled.
pub fn search_shrinks()
    ensures { SearchShrinks }
{}

/// A component that no map shrinks is settled.
pub fn search_settles()
    ensures { SearchSettles }
{}

/// A node that is marked or gone is passed.
pub fn search_goes_on()
    ensures { SearchGoesOn }
{}

/// When each component is settled, the graph is lean.
pub fn search_ends()
    ensures { SearchEnds }
{}
