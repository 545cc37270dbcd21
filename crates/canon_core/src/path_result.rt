//! Results of Hash N-Degree Quads for the nodes of one class.
ghost use Rattle.std.specs.Prelude.{◌≡◌};
ghost use Rattle.std.specs.Str.{bytes_eq};
ghost use Rattle.canon_model.specs.CountedRun.{sort_results as sorted_results};
ghost use Rattle.canon_core.specs.HashOrder.{result_cmp};
ghost use Rattle.canon_core.specs.Results.{StartsAscend};

use canon_model::HexHash;
use rdf_terms::NodeList;
use std::cmp::Ordering;
use std::marker::Model;

// What Hash N-Degree Quads gave for a start node (RDF Dataset Canonicalization, section 4.4, step 5.2): the hash, and
// the nodes that the issuer it returned has issued for.
#[derive(Drop)]
pub(crate) struct PathResult {
    pub start: u32,
    pub hash: HexHash,
    pub list: NodeList,
}

impl Model for PathResult {
    ghost use Rattle.canon_model.specs.Allowed.{HashPathResult};

    ghost Value = { HashPathResult };

    ghost view = { λ r. record { start = r.start; hash = r.hash; issuer = r.list } };
}

impl PathResult {
    // The nodes of the returned issuer, in its order.
    pub(crate) fn list(&self) -> &[u32]
        ensures { result.now ≡ self.now.issuer }
    {
        self.list.as_slice()
    }

    pub(crate) fn has_hash_of(&self, other: &Self) -> bool
        ensures { result ≡ bytes_eq self.now.hash other.now.hash }
    {
        self.hash == other.hash
    }

    // By the hashes, tied ones by the start nodes.
    fn compare(&self, other: &Self) -> Ordering
        ensures { result ≡ result_cmp self.now other.now }
    {
        self.hash
            .cmp(&other.hash)
            .then(self.start.cmp(&other.start))
    }
}

// Puts results in the order of their hashes (section 4.4, step 5.3), tied ones in the order of their start nodes,
// which is the one that they come in.
pub(crate) fn sort_results(results: &mut Vec<PathResult>)
    requires { StartsAscend results.old.items }
    ensures { results.new.items ≡ sorted_results results.old.items }
{
    results.sort_unstable_by(|one, other| one.compare(other));
}
