//! What the search and the index mean for maps of graphs. Each law is a contract, and the functions do nothing.
ghost use Rattle.map_search.specs.Index.{IndexTells};
ghost use Rattle.map_search.specs.Laws.{EndingsMean, MapsOfRows, NodesTell};
ghost use Rattle.map_search.specs.Numbers.{AgreeingMapsReach, EndingsMeanByTerms};

/// The numbers that the index finds for a condition are those that meet it.
pub fn index_tells()
    ensures { IndexTells }
{}

/// The maps of all places that fit the rows of some nodes are the maps of these nodes that carry each
/// triple of theirs.
pub fn maps_of_rows()
    ensures { MapsOfRows }
{}

/// A search that finds nothing shows that each map of the nodes reaches each triple of theirs, and that
/// these maps have no more beginnings than the limit; what it finds is a map that misses one.
pub fn endings_mean()
    ensures { EndingsMean }
{}

/// Whether a map of the nodes misses a triple is seen by the nodes alone: some node is no image.
pub fn nodes_tell()
    ensures { NodesTell }
{}

/// What the ending of a search by term numbers means by terms.
pub fn endings_mean_by_terms()
    ensures { EndingsMeanByTerms }
{}

/// A map of term numbers and a map of terms that say the same reach the same triples.
pub fn agreeing_maps_reach()
    ensures { AgreeingMapsReach }
{}
