//! Prefixed names.

ghost use Rattle.std.specs.Prelude.{◌≡◌, IfSome, IfNone};
ghost use Rattle.trig_lexer.specs.Longest.{TextBeginsWithLongest, TextBeginsWithNoToken};
ghost use Rattle.trig_lexer.specs.Fronts.{BeginsWithShape, BeginsWithNoShape, TextReads, TextReadsNone};
ghost use Rattle.trig_lexer.specs.Names.{IsPnameNs, NameShapes};

use crate::Kind;
use crate::found::Found;
use crate::parts::{Part, after_part};
use terminals::after;

// What follows the PNAME_NS at the front.
fn after_namespace(text: &str) -> Option<&str>
    ensures found { IfSome result (λ rest. TextReads (BeginsWithShape IsPnameNs) text.now rest.now) }
    ensures none { IfNone result (TextReadsNone (BeginsWithNoShape IsPnameNs) text.now) }
{
    match after_part(text, Part::Prefix) {
        Some(rest) => after(rest, ':'),
        None => after(text, ':'),
    }
}

// The longest PNAME_NS or PNAME_LN at the front of the text (RDF 1.1 TriG, section 4.5).
pub(crate) fn name(text: &str) -> Option<Found<'_>>
    ensures found { IfSome result (λ x. TextBeginsWithLongest NameShapes text.now x.kind x.rest.now) }
    ensures none { IfNone result (TextBeginsWithNoToken NameShapes text.now) }
{
    let behind = after_namespace(text)?;
    match after_part(behind, Part::Local) {
        Some(rest) => Some(Found {
            kind: Kind::PnameLn,
            rest,
        }),
        None => Some(Found {
            kind: Kind::PnameNs,
            rest: behind,
        }),
    }
}
