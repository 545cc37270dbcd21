//! The hashes of all nodes.

ghost use Rattle.std.specs.Prelude.{◌≡◌, ◌<◌, Some, length, slice_get, IfOk};
ghost use Rattle.canon_model.specs.Meaning.{meaning};
ghost use Rattle.first_degree.specs.FirstHashes.{first_degree_hashes};

use crate::node_hash::hash_node;
use canon_model::{HexHash, Profile};
use canonical_writer::Lines;
use dataset_index::Dataset;
use rdf_terms::NoMemory;
use std::alloc::Global;
use std::marker::Model;

/// The first-degree hash of each node of a dataset (RDF Dataset Canonicalization, section 4.6).
#[derive(Drop)]
pub struct FirstTable {
    hashes: Vec<HexHash>,
}

impl Model for FirstTable {
    ghost use Rattle.std.specs.Prelude.{List};
    ghost use Rattle.rdf_terms.specs.Lists.{Text};

    ghost Value = { List Text };

    ghost view = { λ t. t.hashes.items };
}

impl FirstTable {
    /// Hashes each node once: for each mention of a node one line is written.
    pub fn build(alloc: Global, dataset: &Dataset, profile: Profile) -> Result<Self, NoMemory>
        ensures hashes { IfOk result (λ table. table ≡ first_degree_hashes (meaning profile) dataset.now) }
        ensures count { IfOk result (λ table. length table ≡ length dataset.now.labels) }
    {
        let nodes = dataset.node_count();
        let mut lines = Lines::new(alloc);
        let mut hashes = Vec::with_capacity(alloc, nodes as usize)?;
        for node in 0..nodes {
            hashes.push(hash_node(alloc, &mut lines, dataset, node, profile)?)?;
        }
        Ok(FirstTable { hashes })
    }

    /// The hash of a node of the dataset that the table was built for.
    pub fn hash(&self, node: u32) -> &HexHash
        requires { node < length self.now }
        ensures { slice_get self.now node ≡ Some result.now }
    {
        &self.hashes[node as usize]
    }

    /// The hashes by node.
    pub fn all(&self) -> &[HexHash]
        ensures { result.now ≡ self.now }
    {
        self.hashes.as_slice()
    }
}
