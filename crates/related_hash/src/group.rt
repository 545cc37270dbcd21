//! A group of related nodes.

use canon_model::HexHash;
use rdf_terms::NodeList;

/// A related hash, and the nodes under it, ascending: an entry of the map from hashes to blank nodes
/// (RDF Dataset Canonicalization, section 4.8).
#[derive(Debug, Drop)]
pub struct Group {
    pub hash: HexHash,
    pub nodes: NodeList,
}
