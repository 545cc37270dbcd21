//! Digests as text.

ghost use Rattle.std.specs.Prelude.{◌≡◌};
ghost use Rattle.hex.specs.Hex.{encode_lower};

use canon_model::HexHash;

// A SHA-256 in lower-case hexadecimal.
pub(crate) fn hex_of_sha256(digest: &[u8; 32]) -> HexHash
    ensures { result ≡ encode_lower digest.now }
{
    let mut digits = [0; 64];
    let Ok(()) = hex::encode_to_slice(digest.as_slice(), &mut digits) else {
        unreachable!()
    };
    HexHash::new(&digits)
}

// A SHA-384 in lower-case hexadecimal.
pub(crate) fn hex_of_sha384(digest: &[u8; 48]) -> HexHash
    ensures { result ≡ encode_lower digest.now }
{
    let mut digits = [0; 96];
    let Ok(()) = hex::encode_to_slice(digest.as_slice(), &mut digits) else {
        unreachable!()
    };
    HexHash::new(&digits)
}
