//! Terminals that N-Quads has too.

ghost use Rattle.std.specs.Prelude.{IfSome, IfNone};
ghost use Rattle.trig_lexer.specs.Longest.{TextBeginsWithLongest, TextBeginsWithNoToken};
ghost use Rattle.trig_lexer.specs.Groups.{IriShapes, LabelShapes};

use crate::Kind;
use crate::found::Found;
use terminals::{Grammar, blank_node_label, iriref};

// The IRIREF at the front.
pub(crate) fn iri(text: &str) -> Option<Found<'_>>
    ensures found { IfSome result (λ x. TextBeginsWithLongest IriShapes text.now x.kind x.rest.now) }
    ensures none { IfNone result (TextBeginsWithNoToken IriShapes text.now) }
{
    let (_, rest) = iriref(text)?;
    Some(Found {
        kind: Kind::IriRef,
        rest,
    })
}

// The BLANK_NODE_LABEL at the front.
pub(crate) fn label(text: &str) -> Option<Found<'_>>
    ensures found { IfSome result (λ x. TextBeginsWithLongest LabelShapes text.now x.kind x.rest.now) }
    ensures none { IfNone result (TextBeginsWithNoToken LabelShapes text.now) }
{
    let (_, rest) = blank_node_label(text, Grammar::TriG)?;
    Some(Found {
        kind: Kind::BlankLabel,
        rest,
    })
}
