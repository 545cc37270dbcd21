//! What spelled characters stand for, which mostly lies in the text itself.

ghost use Rattle.std.specs.Prelude.{◌≡◌, string_bytes};

use std::alloc::Global;
use std::borrow::CowStr;
use std::marker::Model;

/// What spelled characters stand for: where no escape is among them, they stand for themselves, and
/// it lies in the text itself.
#[derive(Drop)]
pub struct SpelledText<'a> {
    text: CowStr<'a, Global>,
}

impl<'a> Model for SpelledText<'a> {
    ghost use Rattle.std.specs.Prelude.{ℕ, List};
    ghost use Rattle.std.specs.Cow.{cow_str_bytes};

    ghost Value = { List ℕ };

    ghost view = { λ t. cow_str_bytes t.text };
}

impl<'a> SpelledText<'a> {
    /// The text as it lies elsewhere.
    pub fn of_text(text: &'a str) -> Self
        ensures { result ≡ text.now }
    {
        SpelledText {
            text: CowStr::Borrowed(text),
        }
    }

    /// A text of its own.
    pub fn with_escapes_undone(text: String) -> Self
        ensures { result ≡ string_bytes text }
    {
        SpelledText {
            text: CowStr::Owned(text),
        }
    }

    /// The text.
    pub fn as_str(&self) -> &str
        ensures { result.now ≡ self.now }
    {
        self.text.as_str()
    }
}
