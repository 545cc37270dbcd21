//! Bytes of an IRI, tested many at once.
ghost use Rattle.std.specs.Prelude.{◌≡◌, ◌+◌, ◌≤◌, length, take, drop};
ghost use Rattle.std.specs.List.{prefix_len};
ghost use Rattle.char_tables.specs.Classes.{may_stand_in_iriref};
ghost use Rattle.char_tables.specs.Lanes.{first_set};
ghost use Rattle.char_tables.specs.declared.lanes.TheConstants.{LANES};

use crate::classes::is_iri_byte;
use std::simd::prelude::*;

// How many bytes are tested at once.
const LANES: usize = 16;

// The place of the lowest bit that is set, or `LANES` where none is.
#[inline(always)]
fn first_set(mask: u64) -> usize
    ensures { result ≡ first_set mask LANES }
{
    if mask == 0 {
        LANES
    } else {
        mask.trailing_zeros() as usize
    }
}

// How many of the next `LANES` bytes may stand unescaped in an IRIREF, up to the first that may not.
// Two bytes that differ in the second bit alone are tested as one: `<` and `>`, `\` and `^`.
#[inline(always)]
fn lanes_len(bytes: &[u8], at: usize) -> usize
    requires { at + LANES ≤ length bytes.now }
    ensures is { result ≡ prefix_len may_stand_in_iriref (take LANES (drop at bytes.now)) }
    ensures within { result ≤ LANES }
{
    let lanes = u8x16::from_slice(&bytes[at..]);
    let with_second_bit = lanes | u8x16::splat(2);
    let stops = lanes.simd_lt(u8x16::splat(0x21))
        | lanes.simd_eq(u8x16::splat(b'"'))
        | with_second_bit.simd_eq(u8x16::splat(b'>'))
        | with_second_bit.simd_eq(u8x16::splat(b'^'))
        | lanes.simd_eq(u8x16::splat(b'`'))
        | (lanes - u8x16::splat(b'{')).simd_lt(u8x16::splat(3));
    first_set(stops.to_bitmask())
}

// The same of all bytes, one at a time.
#[inline]
fn rest_len(bytes: &[u8]) -> usize
    ensures is { result ≡ prefix_len may_stand_in_iriref bytes.now }
    ensures within { result ≤ length bytes.now }
{
    bytes.iter().take_while(|byte| is_iri_byte(**byte)).count()
}

/// How many bytes at the front of a text in UTF-8 may stand unescaped in an IRIREF (RDF 1.1 N-Quads,
/// section 4).
#[inline]
pub fn iri_len(bytes: &[u8]) -> usize
    ensures is { result ≡ prefix_len may_stand_in_iriref bytes.now }
    ensures within { result ≤ length bytes.now }
{
    let mut at = 0;
    while LANES <= bytes.len() - at {
        let len = lanes_len(bytes, at);
        at += len;
        if len < LANES {
            return at;
        }
    }
    at + rest_len(&bytes[at..])
}
