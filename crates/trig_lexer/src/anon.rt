//! The blank node without a label.

ghost use Rattle.std.specs.Prelude.{IfSome, IfNone};
ghost use Rattle.trig_lexer.specs.Longest.{TextBeginsWithLongest, TextBeginsWithNoToken};
ghost use Rattle.trig_lexer.specs.Groups.{AnonShapes};

use crate::Kind;
use crate::found::Found;
use crate::white_space::after_gaps;
use terminals::after;

// The ANON at the front.
pub(crate) fn anon(text: &str) -> Option<Found<'_>>
    ensures found { IfSome result (λ x. TextBeginsWithLongest AnonShapes text.now x.kind x.rest.now) }
    ensures none { IfNone result (TextBeginsWithNoToken AnonShapes text.now) }
{
    let inside = after(text, '[')?;
    let rest = after(after_gaps(inside), ']')?;
    Some(Found {
        kind: Kind::Anon,
        rest,
    })
}
