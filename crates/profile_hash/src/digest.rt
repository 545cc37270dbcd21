//! A digest of texts that lie apart.

ghost use Rattle.std.specs.Prelude.{map};
ghost use Rattle.rdf_terms.specs.Lists.{joined};

use sha2::Digest;

// The digest of the texts, one after the other.
pub(crate) fn digest_of_pieces<D: Digest>(pieces: &[&[u8]]) -> D::Output
    ensures { D.digest_of (joined (map (λ t. t.now) pieces.now)) result }
{
    let mut hasher = D::new();
    for piece in pieces {
        hasher.update(*piece);
    }
    hasher.finalize()
}
