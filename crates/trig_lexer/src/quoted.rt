//! Strings in their four forms.

ghost use Rattle.std.specs.Prelude.{◌≡◌, ◌≢◌, ℕ, List, ◌∷◌, ◌++◌, IfSome, IfNone};
ghost use Rattle.terminals.specs.Spellings.{quote_mark};
ghost use Rattle.trig_lexer.specs.Longest.{TextBeginsWithLongest, TextBeginsWithNoToken};
ghost use Rattle.trig_lexer.specs.Fronts.{BeginsWithShape, BeginsWithNoShape, BeginsWithLongestShape, TextReads, TextReadsNone};
ghost use Rattle.trig_lexer.specs.Strings.{three_marks, IsLongPiece, IsLongString, IsQuotedBy, QuotedShapes, BeginsWithMarks, AreLongPieces};

use crate::Kind;
use crate::found::Found;
use terminals::{Body, Quote, after, run, short_string};

// What follows the mark at the front.
fn after_mark(text: &str, quote: Quote) -> Option<&str>
    ensures found { IfSome result (λ rest. text.now ≡ quote_mark quote ∷ rest.now) }
    ensures none { IfNone result ((rest : List ℕ) → text.now ≢ quote_mark quote ∷ rest) }
{
    match quote {
        Quote::Double => after(text, '"'),
        Quote::Single => after(text, '\''),
    }
}

// What follows the three marks at the front.
fn after_three_marks(text: &str, quote: Quote) -> Option<&str>
    ensures found { IfSome result (λ rest. text.now ≡ three_marks quote ++ rest.now) }
    ensures none { IfNone result ((rest : List ℕ) → text.now ≢ three_marks quote ++ rest) }
{
    after_mark(after_mark(after_mark(text, quote)?, quote)?, quote)
}

// What follows the marks at the front, of which no more than two are taken.
fn after_marks(text: &str, quote: Quote) -> &str
    ensures { BeginsWithMarks quote text.now result.now }
{
    let Some(one) = after_mark(text, quote) else {
        return text;
    };
    let Some(two) = after_mark(one, quote) else {
        return one;
    };
    two
}

// What follows pieces of a long string at the front, where it does not end there.
fn after_long_pieces(text: &str, quote: Quote) -> Option<&str>
    requires goes_on { (rest : List ℕ) → text.now ≢ three_marks quote ++ rest }
    ensures found { IfSome result (λ rest. TextReads (BeginsWithShape (AreLongPieces quote)) text.now rest.now) }
    ensures none { IfNone result (TextReadsNone (BeginsWithNoShape (IsLongPiece quote)) text.now) }
{
    let bare = after_marks(text, quote);
    let (_, rest) = run(bare, Body::Long(quote));
    if rest.len() < bare.len() {
        Some(rest)
    } else {
        None
    }
}

// What follows the long string at the front.
fn after_long_string(text: &str, quote: Quote) -> Option<&str>
    ensures found { IfSome result (λ rest. TextReads (BeginsWithShape (IsLongString quote)) text.now rest.now) }
    ensures none { IfNone result (TextReadsNone (BeginsWithNoShape (IsLongString quote)) text.now) }
{
    let mut rest = after_three_marks(text, quote)?;
    loop {
        if let Some(end) = after_three_marks(rest, quote) {
            return Some(end);
        }
        rest = after_long_pieces(rest, quote)?;
    }
}

// What follows the longest string with this mark at the front. Where a long one does not fit, a short
// one may.
fn quoted_by(text: &str, quote: Quote) -> Option<&str>
    ensures found { IfSome result (λ rest. TextReads (BeginsWithLongestShape (IsQuotedBy quote)) text.now rest.now) }
    ensures none { IfNone result (TextReadsNone (BeginsWithNoShape (IsQuotedBy quote)) text.now) }
{
    if let Some(rest) = after_long_string(text, quote) {
        return Some(rest);
    }
    let (_, rest) = short_string(text, quote)?;
    Some(rest)
}

// The longest string at the front of the text (RDF 1.1 TriG, section 4.5).
pub(crate) fn quoted(text: &str) -> Option<Found<'_>>
    ensures found { IfSome result (λ x. TextBeginsWithLongest QuotedShapes text.now x.kind x.rest.now) }
    ensures none { IfNone result (TextBeginsWithNoToken QuotedShapes text.now) }
{
    if let Some(rest) = quoted_by(text, Quote::Double) {
        return Some(Found {
            kind: Kind::Quoted,
            rest,
        });
    }
    let rest = quoted_by(text, Quote::Single)?;
    Some(Found {
        kind: Kind::Quoted,
        rest,
    })
}
