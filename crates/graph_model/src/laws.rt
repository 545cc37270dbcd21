//! Laws of graphs, their maps and their components. Each law is a contract, and the functions do nothing.
ghost use Rattle.graph_model.specs.Laws.{ComponentLaw, ComponentsAreClosed, CountIsMore, EndomorphismsCompose, ImagesLieWithin, LeanHasNoProperInstance, LeanIsTight, MapsCompose, SettledStaysSettled, TightComponentsAreLean, TightStaysTight};

/// A map of one graph into another, and then one of that into a third, is one of the first into the third.
pub fn maps_compose()
    ensures { MapsCompose }
{}

/// An endomorphism and then one of its image is an endomorphism of the first graph, and its image is
/// that of the second.
pub fn endomorphisms_compose()
    ensures { EndomorphismsCompose }
{}

/// The image of an endomorphism keeps the numbers of its nodes.
pub fn images_lie_within()
    ensures { ImagesLieWithin }
{}

/// No instance of a lean graph is a proper subgraph of it.
pub fn lean_has_no_proper_instance()
    ensures { LeanHasNoProperInstance }
{}

/// In a lean graph no map of a component, with all other nodes kept, misses a triple of it.
pub fn lean_is_tight()
    ensures { LeanIsTight }
{}

/// A triple that mentions a node of a component mentions no node outside it.
pub fn components_are_closed()
    ensures { ComponentsAreClosed }
{}

/// Where an endomorphism of the whole graph misses a triple of a component, a map of the component into
/// the graph, with all other nodes kept, misses it.
pub fn component_law()
    ensures { ComponentLaw }
{}

/// A graph is lean where no map of a component, with all other nodes kept, misses a triple of it.
pub fn tight_components_are_lean()
    ensures { TightComponentsAreLean }
{}

/// What was found of a component holds on when the graph shrinks elsewhere.
pub fn tight_stays_tight()
    ensures { TightStaysTight }
{}

/// What was found of a component need not be looked for again when a map of another one shrinks the graph.
pub fn settled_stays_settled()
    ensures { SettledStaysSettled }
{}

/// The count of partial maps is above a limit exactly where more different ones are told.
pub fn count_is_more()
    ensures { CountIsMore }
{}
