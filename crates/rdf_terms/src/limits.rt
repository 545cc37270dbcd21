//! How much a document may hold.

/// How many quads a draft may hold. Each has at most four terms, so that numbers of 32 bits suffice
/// for these.
pub const MOST_QUADS: u64 = 1_000_000_000;

/// How many terms a table may number, and how many labels a draft: each number is below this one,
/// which is left for what has none.
pub const MOST_NUMBERS: u32 = u32::MAX;
