//! A tie.

use rdf_terms::NodeList;

/// Two results that the algorithm doesn't tell apart: the list of the canonical issuer, how many
/// nodes of both lists were passed in, and the lists of the two issuers.
#[derive(Debug, Drop)]
pub struct Tie {
    pub canon: NodeList,
    pub passed: u32,
    pub left: NodeList,
    pub right: NodeList,
}
