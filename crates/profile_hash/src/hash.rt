//! The hash of a text, by a profile.

ghost use Rattle.std.specs.Prelude.{◌≡◌, map};
ghost use Rattle.rdf_terms.specs.Lists.{joined};
ghost use Rattle.canon_model.specs.Meaning.{meaning};

use crate::digest::digest_of_pieces;
use crate::hexadecimal::{hex_of_sha256, hex_of_sha384};
use canon_model::{HashKind, HexHash, Profile};
use sha2::{Digest, Sha256, Sha384};

/// The hash of a text.
#[tactic(auto, unfolding(canon_model::specs::Meaning::meaning))]
pub fn hash_of_text(text: &[u8], profile: Profile) -> HexHash
    ensures { result ≡ (meaning profile).hash text.now }
{
    match profile.hash {
        HashKind::Sha256 => hex_of_sha256(&Sha256::digest(text)),
        HashKind::Sha384 => hex_of_sha384(&Sha384::digest(text)),
    }
}

/// The hash of texts, one after the other. They are not put together: each is fed to the hash in its
/// turn.
#[tactic(auto, unfolding(canon_model::specs::Meaning::meaning))]
pub fn hash_of_pieces(pieces: &[&[u8]], profile: Profile) -> HexHash
    ensures { result ≡ (meaning profile).hash (joined (map (λ t. t.now) pieces.now)) }
{
    match profile.hash {
        HashKind::Sha256 => hex_of_sha256(&digest_of_pieces::<Sha256>(pieces)),
        HashKind::Sha384 => hex_of_sha384(&digest_of_pieces::<Sha384>(pieces)),
    }
}
