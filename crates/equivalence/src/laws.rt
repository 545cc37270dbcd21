//! Laws of lean graphs and equivalence. Each law is a contract, and the functions do nothing.
ghost use Rattle.equivalence.specs.Laws.{LeanImagesAreIsomorphic, LeanIsPermuted, MapsOfLeanRename};

/// An endomorphism of a lean graph is a bijection of its terms that keeps blank nodes blank (RDF 1.1
/// Semantics, section 4).
pub fn lean_is_permuted()
    ensures { LeanIsPermuted }
{}

/// Of two maps between lean graphs, one each way, each is an isomorphism.
pub fn maps_of_lean_rename()
    ensures { MapsOfLeanRename }
{}

/// Lean images of two graphs that entail each other are isomorphic.
pub fn lean_images_are_isomorphic()
    ensures { LeanImagesAreIsomorphic }
{}
