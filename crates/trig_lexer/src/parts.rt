//! The two parts of a prefixed name.

ghost use Rattle.std.specs.Prelude.{◌≡◌, IfSome, IfNone};
ghost use Rattle.char_tables.specs.Rows.{is_in};
ghost use Rattle.trig_lexer.specs.Fronts.{BeginsWithShape, BeginsWithNoShape, BeginsWithLongestShape, TextReads, TextReadsNone};
ghost use Rattle.trig_lexer.specs.Names.{escaped_in_local, IsPercent, IsLocalEscape, IsPlx, takes, IsEscapeIn, IsPiece, GoesOnAsPart, IsPart};

use char_tables::{is_hex, is_pn, is_pn_base, is_pn_u_ttl};
use terminals::{after, first_char};

// The parts of a prefixed name.
#[derive(Clone, Copy, Debug, PartialEq, Eq)]
pub(crate) enum Part {
    // PN_PREFIX
    Prefix,
    // PN_LOCAL
    Local,
}

// Where in a part a character stands.
#[derive(Clone, Copy, Debug, PartialEq, Eq)]
pub(crate) enum Place {
    First,
    Later,
}

impl Part {
    // Whether the character may stand there.
    fn takes(self, place: Place, c: char) -> bool
        ensures { result ≡ takes self place c }
    {
        match (self, place) {
            (Part::Prefix, Place::First) => is_pn_base(c),
            (Part::Prefix, Place::Later) => is_pn(c),
            (Part::Local, Place::First) => is_pn_u_ttl(c) || c == ':' || c.is_ascii_digit(),
            (Part::Local, Place::Later) => is_pn(c) || c == ':',
        }
    }
}

// Whether a local part may hold the character behind a `\`.
fn is_escaped_in_local(c: char) -> bool
    ensures { result ≡ is_in escaped_in_local c }
{
    matches!(c, '!' | '#'..='/' | ';' | '=' | '?' | '@' | '_' | '~')
}

// What follows the `%` and two HEX at the front.
fn after_percent(text: &str) -> Option<&str>
    ensures found { IfSome result (λ rest. TextReads (BeginsWithShape IsPercent) text.now rest.now) }
    ensures none { IfNone result (TextReadsNone (BeginsWithNoShape IsPercent) text.now) }
{
    let (first, more) = first_char(after(text, '%')?)?;
    let (second, rest) = first_char(more)?;
    if is_hex(first) && is_hex(second) {
        Some(rest)
    } else {
        None
    }
}

// What follows the PN_LOCAL_ESC at the front.
fn after_local_escape(text: &str) -> Option<&str>
    ensures found { IfSome result (λ rest. TextReads (BeginsWithShape IsLocalEscape) text.now rest.now) }
    ensures none { IfNone result (TextReadsNone (BeginsWithNoShape IsLocalEscape) text.now) }
{
    let (c, rest) = first_char(after(text, '\\')?)?;
    if is_escaped_in_local(c) {
        Some(rest)
    } else {
        None
    }
}

// What follows the PLX at the front.
fn after_plx(text: &str) -> Option<&str>
    ensures found { IfSome result (λ rest. TextReads (BeginsWithShape IsPlx) text.now rest.now) }
    ensures none { IfNone result (TextReadsNone (BeginsWithNoShape IsPlx) text.now) }
{
    match after_percent(text) {
        Some(rest) => Some(rest),
        None => after_local_escape(text),
    }
}

// What follows the escape at the front, where the part may hold one.
fn after_escape(text: &str, part: Part) -> Option<&str>
    ensures found { IfSome result (λ rest. TextReads (BeginsWithShape (IsEscapeIn part)) text.now rest.now) }
    ensures none { IfNone result (TextReadsNone (BeginsWithNoShape (IsEscapeIn part)) text.now) }
{
    match part {
        Part::Prefix => None,
        Part::Local => after_plx(text),
    }
}

// What follows the character or the escape at the front, where it may stand at this place of the part.
fn after_piece(text: &str, part: Part, place: Place) -> Option<&str>
    ensures found { IfSome result (λ rest. TextReads (BeginsWithShape (IsPiece part place)) text.now rest.now) }
    ensures none { IfNone result (TextReadsNone (BeginsWithNoShape (IsPiece part place)) text.now) }
{
    let (c, rest) = first_char(text)?;
    if part.takes(place, c) {
        return Some(rest);
    }
    after_escape(text, part)
}

// What follows the longest that may stand behind the first piece of the part: it may hold dots, but
// it does not end in one.
fn after_pieces(text: &str, part: Part) -> &str
    ensures { TextReads (BeginsWithLongestShape (GoesOnAsPart part)) text.now result.now }
{
    let mut end = text;
    let mut rest = text;
    loop {
        if let Some(next) = after_piece(rest, part, Place::Later) {
            end = next;
            rest = next;
        } else if let Some(next) = after(rest, '.') {
            rest = next;
        } else {
            return end;
        }
    }
}

// What follows the longest such part at the front.
pub(crate) fn after_part(text: &str, part: Part) -> Option<&str>
    ensures found { IfSome result (λ rest. TextReads (BeginsWithLongestShape (IsPart part)) text.now rest.now) }
    ensures none { IfNone result (TextReadsNone (BeginsWithNoShape (IsPart part)) text.now) }
{
    Some(after_pieces(after_piece(text, part, Place::First)?, part))
}
