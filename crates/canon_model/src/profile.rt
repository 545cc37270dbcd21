//! What a run is asked to hash with, and how it is asked to read the standard.

/// A hash function of FIPS 180-4.
#[derive(Clone, Copy, Debug, PartialEq, Eq)]
pub enum HashKind {
    Sha256,
    Sha384,
}

/// How often a node that is met several times under one related hash stands in its list (RDF
/// Dataset Canonicalization, section 4.8, step 3.1).
#[derive(Clone, Copy, Debug, PartialEq, Eq)]
pub enum Related {
    /// For each time that it is met.
    Each,
    Once,
}

/// What a run is asked to hash with, and how it is asked to read the standard.
#[derive(Clone, Copy, Debug, PartialEq, Eq)]
pub struct Profile {
    pub hash: HashKind,
    pub related: Related,
}

impl Profile {
    /// SHA-256, with an entry for each time that a node is met.
    pub const DEFAULT: Profile = Profile {
        hash: HashKind::Sha256,
        related: Related::Each,
    };
}
