//! What a call of Hash N-Degree Quads is made with.

ghost use Rattle.std.specs.Prelude.{◌≡◌, ◌<◌, map, length};
ghost use Rattle.rdf_terms.specs.Lists.{numbers_below};
ghost use Rattle.rdf_terms.specs.Document.{dataset as dataset_of};
ghost use Rattle.rdf_terms.specs.declared.term.Prefix.TheVariants.{Canonical, Temporary};
ghost use Rattle.canon_model.specs.FirstDegree.{hash_first_degree_quads};
ghost use Rattle.canon_model.specs.Meaning.{meaning};

use canon_model::{HexHash, Profile};
use dataset_index::Dataset;
use id_issuer::Issuer;

// The dataset with the first-degree hashes of its nodes, the two issuers and the node of a call.
#[derive(Clone, Copy)]
pub(crate) struct Call<'a> {
    pub dataset: &'a Dataset,
    pub first: &'a [HexHash],
    pub canon: &'a Issuer,
    pub issuer: &'a Issuer,
    pub node: u32,
    pub profile: Profile,
    ghost first_is: { first.now ≡ map (hash_first_degree_quads (meaning profile) (dataset_of dataset.now)) (numbers_below (length dataset.now.labels)) },
    ghost canonical: { canon.now.prefix ≡ Canonical },
    ghost temporary: { issuer.now.prefix ≡ Temporary },
    ghost in_range: { node < length dataset.now.labels },
}
