//! Whether a text begins with a scheme.

ghost use Rattle.std.specs.Prelude.{◌≡◌, ◌≤◌, ◌↔◌, IsTrue, true, length};
ghost use Rattle.std.specs.List.{prefix_len};
ghost use Rattle.iri_resolve.specs.Scheme.{begins_with_scheme};
ghost use Rattle.rdf_terms.specs.Terms.{is_scheme_byte, HasScheme};

// A letter, a digit, `+`, `-` or `.` for itself, and for any other byte a `|`.
static SCHEME_BYTES: [u8; 256] = *b"\
    ||||||||||||||||||||||||||||||||\
    |||||||||||+|-.|0123456789||||||\
    |ABCDEFGHIJKLMNOPQRSTUVWXYZ|||||\
    |abcdefghijklmnopqrstuvwxyz|||||\
    ||||||||||||||||||||||||||||||||\
    ||||||||||||||||||||||||||||||||\
    ||||||||||||||||||||||||||||||||\
    ||||||||||||||||||||||||||||||||";

// Whether the byte may follow the first letter of a scheme.
#[inline]
fn goes_on(byte: u8) -> bool
    ensures { result ≡ is_scheme_byte byte }
{
    SCHEME_BYTES[byte as usize] != b'|'
}

// How many bytes at the front may stand in a scheme.
fn scheme_len(text: &[u8]) -> usize
    ensures is { result ≡ prefix_len is_scheme_byte text.now }
    ensures within { result ≤ length text.now }
{
    text.iter().take_while(|byte| goes_on(**byte)).count()
}

// Whether the bytes begin with one of the two schemes that most IRIs have, and `:`.
#[inline]
fn begins_with_http(text: &[u8]) -> bool
    ensures { result ≡ true → begins_with_scheme text.now ≡ true }
{
    matches!(
        text,
        [b'h', b't', b't', b'p', b':', ..] | [b'h', b't', b't', b'p', b's', b':', ..]
    )
}

// Whether the bytes at the front that may stand in a scheme are followed by `:`, and the first of
// them is a letter.
fn spells_scheme(text: &[u8]) -> bool
    ensures { result ≡ begins_with_scheme text.now }
{
    let end = scheme_len(text);
    end < text.len() && text[end] == b':' && text[0].is_ascii_alphabetic()
}

// Whether the bytes begin with a scheme and `:`.
pub(crate) fn begins_with_scheme(text: &[u8]) -> bool
    ensures { result ≡ begins_with_scheme text.now }
{
    begins_with_http(text) || spells_scheme(text)
}

/// Whether the text begins with a scheme and `:` (RFC 3986, section 3.1).
pub fn has_scheme(text: &str) -> bool
    ensures { IsTrue result ↔ HasScheme text.now }
{
    begins_with_scheme(text.as_bytes())
}
