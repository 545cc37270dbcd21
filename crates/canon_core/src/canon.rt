//! The canonical form of a dataset, and what its run counted.

ghost use Rattle.std.specs.Prelude.{◌≡◌};
ghost use Rattle.canon_model.specs.Meaning.{meaning};

use canon_model::{HexHash, Profile};
use ndegree_hash::Tie;
use profile_hash::hash_of_text;
use rdf_terms::{Bytes, NodeList};

/// The canonical form of a dataset (RDF Dataset Canonicalization, section 4.4), and what its run
/// counted.
#[derive(Debug, Drop)]
pub struct Canon {
    /// Canonical N-Quads.
    pub bytes: Bytes,
    /// The nodes in the order of their canonical identifiers.
    pub order: NodeList,
    /// How many calls of Hash N-Degree Quads were made and permutations begun.
    pub units: u64,
    /// How many ties were met.
    pub ties: u64,
    /// How many of them are joined by a symmetry.
    pub joined: u64,
    /// The first that is not.
    pub unsettled: Option<Tie>,
    /// What the run was asked to hash with, and how it was asked to read the standard.
    pub profile: Profile,
}

impl Canon {
    /// The hash of the canonical form, by the profile of the run.
    pub fn hash(&self) -> HexHash
        ensures { result ≡ (meaning self.now.profile).hash self.now.bytes }
    {
        hash_of_text(self.bytes.as_slice(), self.profile)
    }
}
