//! Characters that are spelled by an escape.

ghost use Rattle.std.specs.Prelude.{◌≡◌, ◌⊎◌, ℕ, ◌≤◌, true, length, All, IfSome, IfNone};
ghost use Rattle.std.specs.Str.Parse.{digits_value};
ghost use Rattle.rdf_terms.specs.Lists.{In};
ghost use Rattle.char_tables.specs.Rows.{is_in};
ghost use Rattle.char_tables.specs.Classes.{hex};
ghost use Rattle.terminals.specs.Escapes.{echar_meanings, IsNumberOf, IsUchar, IsEchar, BeginsWithOne, BeginsWithNoOne};
ghost use Rattle.terminals.specs.Spellings.{IsEscape};

use crate::Body;
use crate::fronts::{after, first_char};
use char_tables::{is_hex, is_iri_char};

// The number that hexadecimal digits write, where all of them are HEX.
fn hex_number(digits: &[u8]) -> Option<u32>
    requires { length digits.now ≤ 8 }
    ensures found { IfSome result (λ n. n ≡ digits_value 16 digits.now) }
    ensures found_hex { IfSome result (λ n. All (λ d. is_in hex d ≡ true) digits.now) }
    ensures none { IfNone result (¬ (All (λ d. is_in hex d ≡ true) digits.now)) }
{
    let mut number = 0;
    for digit in digits {
        if !is_hex(*digit as char) {
            return None;
        }
        number = number * 16 + (*digit as char).to_digit(16)?;
    }
    Some(number)
}

// What the letter of an ECHAR means.
fn echar_meaning(letter: char) -> Option<char>
    ensures found { IfSome result (λ c. In (letter, c) echar_meanings) }
    ensures none { IfNone result ((c : ℕ) → ¬ (In (letter, c) echar_meanings)) }
{
    match letter {
        't' => Some('\t'),
        'b' => Some('\u{8}'),
        'n' => Some('\n'),
        'r' => Some('\r'),
        'f' => Some('\u{C}'),
        '"' => Some('"'),
        '\'' => Some('\''),
        '\\' => Some('\\'),
        _ => None,
    }
}

// The character whose number the first `count` bytes write, and what follows them.
fn named_by_number(text: &str, count: usize) -> Option<(char, &str)>
    requires { count ≤ 8 }
    ensures found { IfSome result (λ x. BeginsWithOne (IsNumberOf count) text.now x.0 x.1.now) }
    ensures none { IfNone result (BeginsWithNoOne (IsNumberOf count) text.now) }
{
    if text.len() < count {
        return None;
    }
    let number = hex_number(&text.as_bytes()[..count])?;
    Some((char::from_u32(number)?, &text[count..]))
}

// The UCHAR at the front: the character that it names, and what follows it.
fn uchar(text: &str) -> Option<(char, &str)>
    ensures found { IfSome result (λ x. BeginsWithOne IsUchar text.now x.0 x.1.now) }
    ensures none { IfNone result (BeginsWithNoOne IsUchar text.now) }
{
    let (letter, digits) = first_char(after(text, '\\')?)?;
    match letter {
        'u' => named_by_number(digits, 4),
        'U' => named_by_number(digits, 8),
        _ => None,
    }
}

// The ECHAR at the front: the character that it means, and what follows it.
fn echar(text: &str) -> Option<(char, &str)>
    ensures found { IfSome result (λ x. BeginsWithOne IsEchar text.now x.0 x.1.now) }
    ensures none { IfNone result (BeginsWithNoOne IsEchar text.now) }
{
    let (letter, rest) = first_char(after(text, '\\')?)?;
    Some((echar_meaning(letter)?, rest))
}

// The escape at the front of characters of an IRI.
fn iri_escape(text: &str) -> Option<(char, &str)>
    ensures found { IfSome result (λ x. BeginsWithOne (IsEscape Body.Iri) text.now x.0 x.1.now) }
    ensures none { IfNone result (BeginsWithNoOne (IsEscape Body.Iri) text.now) }
{
    let (c, rest) = uchar(text)?;
    if is_iri_char(c) {
        Some((c, rest))
    } else {
        None
    }
}

// The escape at the front of characters of a string.
fn string_escape(text: &str) -> Option<(char, &str)>
    ensures found { IfSome result (λ x. BeginsWithOne (λ spelled c. IsUchar spelled c ⊎ IsEchar spelled c) text.now x.0 x.1.now) }
    ensures none { IfNone result (BeginsWithNoOne (λ spelled c. IsUchar spelled c ⊎ IsEchar spelled c) text.now) }
{
    match uchar(text) {
        Some(found) => Some(found),
        None => echar(text),
    }
}

// The escape at the front, where the body allows it: the character that it stands for, and what
// follows it. Most runs end where no `\` stands, so that is tried first.
#[inline(always)]
pub(crate) fn escape(text: &str, body: Body) -> Option<(char, &str)>
    ensures found { IfSome result (λ x. BeginsWithOne (IsEscape body) text.now x.0 x.1.now) }
    ensures none { IfNone result (BeginsWithNoOne (IsEscape body) text.now) }
{
    after(text, '\\')?;
    match body {
        Body::Iri => iri_escape(text),
        Body::Short(_) | Body::Long(_) => string_escape(text),
    }
}
