//! Where bytes are cut: behind their last line end, or between CR and LF.
ghost use Rattle.std.specs.Prelude.{◌≡◌, ◌++◌};
ghost use Rattle.rdf_terms.specs.Lists.{Text};
ghost use Rattle.nquads_reader.specs.Pieces.{IsCut, ends_with_cr};
ghost use Rattle.nquads_reader.specs.Feeding.{behind_line_end};

use memchr::memrchr2;

// The bytes up to the last line end, and those behind it.
pub(crate) fn split_at_last_end(bytes: &[u8]) -> (&[u8], &[u8])
    ensures { IsCut bytes.now result.0.now result.1.now }
{
    match memrchr2(b'\n', b'\r', bytes) {
        None => (&[], bytes),
        Some(end) => (&bytes[..end + 1], &bytes[end + 1..]),
    }
}

// What follows an LF at the front, where it belongs to a CR before it.
pub(crate) fn behind_line_end(after_cr: bool, piece: &[u8]) -> &[u8]
    ensures { result.now ≡ behind_line_end after_cr piece.now }
{
    if after_cr && !piece.is_empty() && piece[0] == b'\n' {
        &piece[1..]
    } else {
        piece
    }
}

// Whether the last byte is a CR, where the piece comes behind bytes of which the same is known.
pub(crate) fn ends_in_cr(after_cr: bool, piece: &[u8]) -> bool
    ensures { (before : Text) → after_cr ≡ ends_with_cr before → result ≡ ends_with_cr (before ++ piece.now) }
{
    match piece.last() {
        None => after_cr,
        Some(last) => *last == b'\r',
    }
}
