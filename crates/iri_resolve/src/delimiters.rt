//! A text cut at the first delimiter.

ghost use Rattle.std.specs.Prelude.{◌≡◌, ◌==◌, ◌<◌};
ghost use Rattle.std.specs.List.{position_or_len};
ghost use Rattle.std.specs.Option.{option_copied};
ghost use Rattle.std.specs.Str.{IsCharBoundary};
ghost use Rattle.iri_resolve.specs.Components.{before, after, from};

// The place of the first such character, or the end.
pub(crate) fn place_of(text: &str, delimiter: char) -> usize
    requires { delimiter < 128 }
    ensures is { result ≡ position_or_len (λ b. b == delimiter) text.now }
    ensures boundary { IsCharBoundary text.now result }
{
    text.find(delimiter).unwrap_or(text.len())
}

// What stands before the first such character, or all, and the rest from it on.
pub(crate) fn split_before(text: &str, delimiter: char) -> (&str, &str)
    requires { delimiter < 128 }
    ensures front { result.0.now ≡ before delimiter text.now }
    ensures back { result.1.now ≡ from delimiter text.now }
{
    text.split_at(place_of(text, delimiter))
}

// What stands before the first such character, or all, and what follows it, where there is one.
pub(crate) fn cut(text: &str, delimiter: char) -> (&str, Option<&str>)
    requires { delimiter < 128 }
    ensures front { result.0.now ≡ before delimiter text.now }
    ensures back { option_copied result.1 ≡ after delimiter text.now }
{
    match text.split_once(delimiter) {
        Some((front, back)) => (front, Some(back)),
        None => (text, None),
    }
}
