//! The keys that the caller drew, as a source of random bytes.

use std::io;
use std::random::RandomSource;

// The bytes of two numbers that the caller drew, over and over.
#[derive(Clone, Copy)]
pub(crate) struct Seed {
    bytes: [u8; 16],
}

impl Seed {
    pub(crate) fn new(key0: u64, key1: u64) -> Self {
        let mut bytes = [0; 16];
        bytes[..8].copy_from_slice(&key0.to_le_bytes());
        bytes[8..].copy_from_slice(&key1.to_le_bytes());
        Seed { bytes }
    }
}

impl RandomSource for Seed {
    fn fill_bytes(&self, buf: &mut [u8]) -> io::Result<()> {
        for part in buf.chunks_mut(16) {
            let len = part.len();
            part.copy_from_slice(&self.bytes[..len]);
        }
        Ok(())
    }
}
