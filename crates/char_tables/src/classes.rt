//! The classes of characters that the grammars name.

ghost use Rattle.std.specs.Prelude.{◌≡◌, not};
ghost use Rattle.char_tables.specs.Rows.{is_in};
ghost use Rattle.char_tables.specs.Classes.{pn_chars_base, pn_chars_u_nquads, pn_chars_u_trig, pn_chars, is_ascii_pn, excluded_from_iriref, hex};

use crate::Ranges;

// PN_CHARS_BASE past ASCII.
const BASE: [(u32, u32); 12] = [
    (0xC0, 0xD6),
    (0xD8, 0xF6),
    (0xF8, 0x2FF),
    (0x370, 0x37D),
    (0x37F, 0x1FFF),
    (0x200C, 0x200D),
    (0x2070, 0x218F),
    (0x2C00, 0x2FEF),
    (0x3001, 0xD7FF),
    (0xF900, 0xFDCF),
    (0xFDF0, 0xFFFD),
    (0x1_0000, 0xE_FFFF),
];

// What PN_CHARS has past ASCII and PN_CHARS_BASE lacks.
const INNER: [(u32, u32); 3] = [(0xB7, 0xB7), (0x300, 0x36F), (0x203F, 0x2040)];

// A `|` for each byte that an IRIREF excludes, and for any other the byte itself, or `~` if it is
// 0x7F or more.
static IRI_BYTES: [u8; 256] = *b"\
    ||||||||||||||||||||||||||||||||\
    |!|#$%&'()*+,-./0123456789:;|=|?\
    @ABCDEFGHIJKLMNOPQRSTUVWXYZ[|]|_\
    |abcdefghijklmnopqrstuvwxyz|||~~\
    ~~~~~~~~~~~~~~~~~~~~~~~~~~~~~~~~\
    ~~~~~~~~~~~~~~~~~~~~~~~~~~~~~~~~\
    ~~~~~~~~~~~~~~~~~~~~~~~~~~~~~~~~\
    ~~~~~~~~~~~~~~~~~~~~~~~~~~~~~~~~";

// The byte itself for each ASCII character of PN_CHARS, and a `|` for any other byte.
static PN_BYTES: [u8; 256] = *b"\
    ||||||||||||||||||||||||||||||||\
    |||||||||||||-||0123456789||||||\
    |ABCDEFGHIJKLMNOPQRSTUVWXYZ||||_\
    |abcdefghijklmnopqrstuvwxyz|||||\
    ||||||||||||||||||||||||||||||||\
    ||||||||||||||||||||||||||||||||\
    ||||||||||||||||||||||||||||||||\
    ||||||||||||||||||||||||||||||||";

// Whether a character is an ASCII one of those given, or in one of the tables of the others.
macro_rules! is_member {
    ($c:expr, $ascii:pat, $($table:expr),+) => {
        if $c.is_ascii() {
            matches!($c, $ascii)
        } else {
            $(Ranges::new($table).contains($c))||+
        }
    };
}

/// PN_CHARS_BASE (RDF 1.1 N-Quads, section 4).
pub fn is_pn_base(c: char) -> bool
    ensures { result ≡ is_in pn_chars_base c }
{
    is_member!(c, 'A'..='Z' | 'a'..='z', BASE)
}

/// PN_CHARS_U of N-Quads, which has `:` (RDF 1.1 N-Quads, section 4).
pub fn is_pn_u_nq(c: char) -> bool
    ensures { result ≡ is_in pn_chars_u_nquads c }
{
    is_member!(c, 'A'..='Z' | 'a'..='z' | ':' | '_', BASE)
}

/// PN_CHARS_U of TriG, which has no `:` (RDF 1.1 TriG, section 4.5).
pub fn is_pn_u_ttl(c: char) -> bool
    ensures { result ≡ is_in pn_chars_u_trig c }
{
    is_member!(c, 'A'..='Z' | 'a'..='z' | '_', BASE)
}

/// PN_CHARS of TriG (RDF 1.1 TriG, section 4.5). That of N-Quads is this class and `:`.
pub fn is_pn(c: char) -> bool
    ensures { result ≡ is_in pn_chars c }
{
    is_member!(
        c,
        'A'..='Z' | 'a'..='z' | '0'..='9' | '_' | '-',
        BASE,
        INNER
    )
}

/// Whether the byte is an ASCII character of PN_CHARS (RDF 1.1 TriG, section 4.5).
#[inline]
pub fn is_pn_byte(byte: u8) -> bool
    ensures { result ≡ is_ascii_pn byte }
{
    PN_BYTES[byte as usize] != b'|'
}

/// Whether the character may stand unescaped in an IRIREF (RDF 1.1 N-Quads, section 4).
#[inline]
pub fn is_iri_char(c: char) -> bool
    ensures { result ≡ not (is_in excluded_from_iriref c) }
{
    !c.is_ascii() || is_iri_byte(c as u8)
}

// Whether the character with this code point may stand unescaped in an IRIREF. All from 0x80 on
// may, so a text in UTF-8 can be tested byte by byte.
#[inline]
pub(crate) fn is_iri_byte(byte: u8) -> bool
    ensures { result ≡ not (is_in excluded_from_iriref byte) }
{
    IRI_BYTES[byte as usize] != b'|'
}

/// HEX (RDF 1.1 N-Quads, section 4).
pub fn is_hex(c: char) -> bool
    ensures { result ≡ is_in hex c }
{
    c.is_ascii_hexdigit()
}
