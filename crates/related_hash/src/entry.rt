//! A node under its related hash.

use canon_model::HexHash;

// A node that is met, under its related hash.
#[derive(Debug, Drop)]
pub(crate) struct Entry {
    pub hash: HexHash,
    pub node: u32,
}
