//! The digits of a hash, in the lengths that hashes have.

// The digits of a hash of 32 or of 48 bytes.
#[derive(Debug, Drop)]
pub(crate) enum Digits {
    Short([u8; 64]),
    Long([u8; 96]),
}
