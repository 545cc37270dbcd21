//! The values of strings, in their four forms.
ghost use Rattle.std.specs.Prelude.{◌≡◌, ℕ, List, false, IfOk, IfSome, IfNone, encode_utf8_all};
ghost use Rattle.rdf_terms.specs.Lists.{Text};
ghost use Rattle.terminals.specs.Terminal.{Characters};
ghost use Rattle.terminals.specs.Terminals.{ShortString};
ghost use Rattle.terminals.specs.declared.bodies.Quote.{Quote as QuoteOf};
ghost use Rattle.trig_lexer.specs.declared.kind.Kind.TheVariants.{Quoted};
ghost use Rattle.trig_lexer.specs.Strings.{IsLongString};
ghost use Rattle.trig_terms.specs.Leaves.{IsSpelled, IsLeafOf};
ghost use Rattle.trig_terms.specs.Values.{IsWhole, IsWholeLong, TextMeans};

use crate::Leaf;
use rdf_terms::NoMemory;
use std::alloc::Global;
use terminals::{Body, Quote, SpelledText, Spelling, after, first_char, run, short_string};

// How the string is spelled, where all of the text is a short one with this mark.
fn whole_short(text: &str, quote: Quote) -> Option<Spelling<'_>>
    ensures found { IfSome result (λ spelling. IsWhole (ShortString quote) text.now spelling) }
    ensures none { IfNone result ((spelled value : Characters) → text.now ≡ encode_utf8_all spelled → ¬ (ShortString quote spelled value)) }
{
    let (spelling, rest) = short_string(text, quote)?;
    if rest.is_empty() {
        Some(spelling)
    } else {
        None
    }
}

// The mark of the long string that the text is.
fn long_mark(text: &str) -> Quote
    ensures { (quote : QuoteOf) → IsWholeLong quote text.now → result ≡ quote }
{
    match after(text, '"') {
        Some(_) => Quote::Double,
        None => Quote::Single,
    }
}

// What stands between the marks of a long string: marks there stand for themselves.
fn long_value<'a>(alloc: Global, inside: &'a str, quote: Quote) -> Result<SpelledText<'a>, NoMemory>
    ensures { (value : Text) → TextMeans quote inside.now value → IfOk result (λ text. text ≡ value) }
{
    let mut value = String::new(alloc);
    let mut piece = String::new(alloc);
    let mut rest = inside;
    loop {
        let (spelling, behind) = run(rest, Body::Long(quote));
        spelling.unescape(&mut piece)?;
        value.push_str(piece.as_str())?;
        let Some((mark, next)) = first_char(behind) else {
            return Ok(SpelledText::with_escapes_undone(value));
        };
        value.push(mark)?;
        rest = next;
    }
}

// The long string that the text is.
fn long_string(alloc: Global, text: &str) -> Result<Leaf<'_>, NoMemory>
    requires { (quote : QuoteOf) × IsWholeLong quote text.now }
    ensures { IfOk result (IsLeafOf Quoted text.now) }
{
    let quote = long_mark(text);
    let inside = &text[3..text.len() - 3];
    Ok(Leaf::Quoted(long_value(alloc, inside, quote)?))
}

// The string that the text is (RDF 1.1 TriG, section 4.5).
pub(crate) fn string(alloc: Global, text: &str) -> Result<Leaf<'_>, NoMemory>
    requires { IsSpelled Quoted text.now }
    ensures { IfOk result (IsLeafOf Quoted text.now) }
{
    if let Some(spelling) = whole_short(text, Quote::Double) {
        return Ok(Leaf::Quoted(spelling.value(alloc)?));
    }
    if let Some(spelling) = whole_short(text, Quote::Single) {
        return Ok(Leaf::Quoted(spelling.value(alloc)?));
    }
    long_string(alloc, text)
}
