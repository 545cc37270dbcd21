//! IRIs and short strings with the marks around them.

ghost use Rattle.std.specs.Prelude.{◌≡◌, ◌≢◌, ◌<◌, false, IfSome, IfNone};
ghost use Rattle.terminals.specs.Terminal.{TextBeginsWithNone};
ghost use Rattle.terminals.specs.Spellings.{stands_for_itself};
ghost use Rattle.terminals.specs.Terminals.{IsBetween, IriRef, ShortString, ReadsSpelling};

use crate::fronts::after;
use crate::{Body, Quote, Spelling, run};

// Spelled characters between two marks at the front, and what follows them.
#[inline(always)]
fn between(text: &str, first: char, last: char, body: Body) -> Option<(Spelling<'_>, &str)>
    requires opens { first < 128 }
    requires closes { last < 128 }
    requires stops { stands_for_itself body last ≡ false }
    requires no_escape { last ≢ 92 }
    ensures found { IfSome result (λ x. ReadsSpelling (IsBetween first last body) text.now x.0 x.1.now) }
    ensures none { IfNone result (TextBeginsWithNone (IsBetween first last body) text.now) }
{
    let (spelling, rest) = run(after(text, first)?, body);
    Some((spelling, after(rest, last)?))
}

/// The IRIREF at the front of the text (RDF 1.1 N-Quads, section 4): how its IRI is spelled, and
/// what follows it.
#[inline]
pub fn iriref(text: &str) -> Option<(Spelling<'_>, &str)>
    ensures found { IfSome result (λ x. ReadsSpelling IriRef text.now x.0 x.1.now) }
    ensures none { IfNone result (TextBeginsWithNone IriRef text.now) }
{
    between(text, '<', '>', Body::Iri)
}

/// The string between two quotes at the front of the text, which is STRING_LITERAL_QUOTE at
/// `Quote::Double` (RDF 1.1 N-Quads, section 4): how it is spelled, and what follows it.
#[inline]
pub fn short_string(text: &str, quote: Quote) -> Option<(Spelling<'_>, &str)>
    ensures found { IfSome result (λ x. ReadsSpelling (ShortString quote) text.now x.0 x.1.now) }
    ensures none { IfNone result (TextBeginsWithNone (ShortString quote) text.now) }
{
    match quote {
        Quote::Double => between(text, '"', '"', Body::Short(quote)),
        Quote::Single => between(text, '\'', '\'', Body::Short(quote)),
    }
}
