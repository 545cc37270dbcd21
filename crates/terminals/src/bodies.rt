//! What stands between two marks, and the marks of strings.

ghost use Rattle.std.specs.Prelude.{◌≡◌};
ghost use Rattle.terminals.specs.Spellings.{quote_mark, stands_for_itself};

/// The mark around a string.
#[derive(Clone, Copy, Debug, PartialEq, Eq)]
pub enum Quote {
    Double,
    Single,
}

impl Quote {
    #[inline]
    fn mark(self) -> u8
        ensures { result ≡ quote_mark self }
    {
        match self {
            Quote::Double => b'"',
            Quote::Single => b'\'',
        }
    }

    // Whether the byte stands for itself between two quotes. Those that do not are ASCII.
    #[inline]
    pub(crate) fn short_takes(self, byte: u8) -> bool
        ensures { result ≡ stands_for_itself (Body.Short self) byte }
    {
        !(byte == self.mark() || byte == b'\\' || byte == b'\n' || byte == b'\r')
    }

    // Whether the byte stands for itself between six quotes. Those that do not are ASCII.
    #[inline]
    pub(crate) fn long_takes(self, byte: u8) -> bool
        ensures { result ≡ stands_for_itself (Body.Long self) byte }
    {
        !(byte == self.mark() || byte == b'\\')
    }
}

/// What stands between two marks, and so decides which characters may stand there, and how.
#[derive(Clone, Copy, Debug, PartialEq, Eq)]
pub enum Body {
    /// Characters of an IRI.
    Iri,
    /// Characters of a string between two quotes.
    Short(Quote),
    /// Characters of a string between six quotes.
    Long(Quote),
}
