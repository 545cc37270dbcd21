//! A short text in the value itself.

ghost use Rattle.std.specs.Prelude.{◌≡◌, ◌≤◌, ◌↔◌, length, IsSome, IfSome};
ghost use Rattle.rdf_terms.specs.declared.inline_text.TheConstants.{INLINE_LEN};

use std::marker::Model;
use std::{fmt, str};

// How many bytes of a text lie in the value itself: with the length and the tag of the enum above
// they make four words.
const INLINE_LEN: usize = 30;

// A short text in UTF-8, whose bytes lie in the value itself.
#[derive(Drop)]
pub(crate) struct InlineText {
    len: u8,
    bytes: [u8; INLINE_LEN],
}

impl Model for InlineText {
    ghost use Rattle.std.specs.Prelude.{ℕ, List, ◌≤◌, take, IsUtf8};
    ghost use Rattle.rdf_terms.specs.declared.inline_text.TheConstants.{INLINE_LEN};

    ghost Value = { List ℕ };

    ghost view = { λ t. take t.len t.bytes };

    ghost invariant = { λ t. (t.len ≤ INLINE_LEN) × ∥ IsUtf8 (take t.len t.bytes) ∥₁ };
}

impl InlineText {
    // A copy of the text, where it fits.
    #[inline]
    pub(crate) fn copy(text: &str) -> Option<Self>
        ensures fits { IsSome result ↔ (length text.now ≤ INLINE_LEN) }
        ensures text { IfSome result (λ t. t ≡ text.now) }
    {
        let len = text.len();
        if len > INLINE_LEN {
            return None;
        }
        let mut bytes = [0; INLINE_LEN];
        bytes[..len].copy_from_slice(text.as_bytes());
        Some(InlineText {
            len: len as u8,
            bytes,
        })
    }

    #[inline]
    pub(crate) fn as_str(&self) -> &str
        ensures { result.now ≡ self.now }
    {
        // The invariant says that these bytes are UTF-8.
        unsafe { str::from_utf8_unchecked(&self.bytes[..self.len as usize]) }
    }
}

impl fmt::Debug for InlineText {
    fn fmt<W: fmt::Write>(&self, f: &mut fmt::Formatter<W>) -> fmt::Result {
        fmt::Debug::fmt(self.as_str(), f)
    }
}
