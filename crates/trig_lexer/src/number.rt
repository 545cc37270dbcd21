//! Numbers.

ghost use Rattle.std.specs.Prelude.{◌≡◌, ◌≢◌, ◌≤◌, ℕ, List, ◌∷◌, length, IfSome, IfNone};
ghost use Rattle.std.specs.Char.{is_ascii_digit};
ghost use Rattle.std.specs.List.{prefix_len};
ghost use Rattle.trig_lexer.specs.Fronts.{BeginsWithNoShape, BeginsWithLongestShape};
ghost use Rattle.trig_lexer.specs.Longest.{BeginsWithLongest, BeginsWithNoToken, TextBeginsWithLongest, TextBeginsWithNoToken};
ghost use Rattle.trig_lexer.specs.Numbers.{BeginsWithSign, BeginsWithDigits, BeginsWithLetter, BeginsWithNoLetter, IsExponent, UnsignedShapes, NumberShapes};

use crate::Kind;
use crate::found::Found;
use terminals::{after, front_len};

// What follows the sign, where one stands at the front.
fn after_sign(text: &str) -> &str
    ensures { BeginsWithSign text.now result.now }
{
    if let Some(rest) = after(text, '+') {
        return rest;
    }
    if let Some(rest) = after(text, '-') {
        return rest;
    }
    text
}

// How many digits stand at the front.
fn digits_len(text: &str) -> usize
    ensures is { result ≡ prefix_len is_ascii_digit text.now }
    ensures within { result ≤ length text.now }
{
    front_len!(text, |byte| byte.is_ascii_digit())
}

// What follows the digits at the front.
fn after_digits(text: &str) -> &str
    ensures { BeginsWithDigits text.now result.now }
{
    &text[digits_len(text)..]
}

// What follows the letter of an exponent at the front.
fn after_letter(text: &str) -> Option<&str>
    ensures found { IfSome result (λ rest. BeginsWithLetter text.now rest.now) }
    ensures none { IfNone result (BeginsWithNoLetter text.now) }
{
    match after(text, 'e') {
        Some(rest) => Some(rest),
        None => after(text, 'E'),
    }
}

// What follows the exponent at the front.
fn after_exponent(text: &str) -> Option<&str>
    ensures found { IfSome result (λ rest. BeginsWithLongestShape IsExponent text.now rest.now) }
    ensures none { IfNone result (BeginsWithNoShape IsExponent text.now) }
{
    let digits = after_sign(after_letter(text)?);
    let rest = after_digits(digits);
    if rest.len() < digits.len() {
        Some(rest)
    } else {
        None
    }
}

// The longest number at the front of a text without a sign, where digits and no point stand there.
fn unpointed<'a>(text: &str, behind: &'a str) -> Option<Found<'a>>
    requires whole { BeginsWithDigits text.now behind.now }
    requires no_point { (rest : List ℕ) → behind.now ≢ 46 ∷ rest }
    ensures found { IfSome result (λ x. BeginsWithLongest UnsignedShapes text.now x.kind x.rest.now) }
    ensures none { IfNone result (BeginsWithNoToken UnsignedShapes text.now) }
{
    if text.len() <= behind.len() {
        return None;
    }
    match after_exponent(behind) {
        Some(rest) => Some(Found {
            kind: Kind::Double,
            rest,
        }),
        None => Some(Found {
            kind: Kind::Integer,
            rest: behind,
        }),
    }
}

// The same where a point stands behind the digits.
fn pointed<'a>(text: &str, behind: &'a str, fraction: &'a str) -> Option<Found<'a>>
    requires whole { BeginsWithDigits text.now behind.now }
    requires point { behind.now ≡ 46 ∷ fraction.now }
    ensures found { IfSome result (λ x. BeginsWithLongest UnsignedShapes text.now x.kind x.rest.now) }
    ensures none { IfNone result (BeginsWithNoToken UnsignedShapes text.now) }
{
    let end = after_digits(fraction);
    if text.len() == end.len() + 1 {
        return None;
    }
    match after_exponent(end) {
        Some(rest) => Some(Found {
            kind: Kind::Double,
            rest,
        }),
        None => {
            if end.len() < fraction.len() {
                Some(Found {
                    kind: Kind::Decimal,
                    rest: end,
                })
            } else {
                Some(Found {
                    kind: Kind::Integer,
                    rest: behind,
                })
            }
        }
    }
}

// The longest number at the front of a text without a sign.
fn unsigned(text: &str) -> Option<Found<'_>>
    ensures found { IfSome result (λ x. BeginsWithLongest UnsignedShapes text.now x.kind x.rest.now) }
    ensures none { IfNone result (BeginsWithNoToken UnsignedShapes text.now) }
{
    let behind = after_digits(text);
    match after(behind, '.') {
        Some(fraction) => pointed(text, behind, fraction),
        None => unpointed(text, behind),
    }
}

// The longest INTEGER, DECIMAL or DOUBLE at the front of the text (RDF 1.1 TriG, section 4.5).
pub(crate) fn number(text: &str) -> Option<Found<'_>>
    ensures found { IfSome result (λ x. TextBeginsWithLongest NumberShapes text.now x.kind x.rest.now) }
    ensures none { IfNone result (TextBeginsWithNoToken NumberShapes text.now) }
{
    unsigned(after_sign(text))
}
