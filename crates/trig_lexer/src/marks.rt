//! Tokens of one character.

ghost use Rattle.std.specs.Prelude.{IfSome, IfNone};
ghost use Rattle.rdf_terms.specs.Lists.{In};
ghost use Rattle.trig_lexer.specs.declared.kind.Kind.{Kind};
ghost use Rattle.trig_lexer.specs.Longest.{TextBeginsWithLongest, TextBeginsWithNoToken};
ghost use Rattle.trig_lexer.specs.Words.{marks};
ghost use Rattle.trig_lexer.specs.Groups.{MarkShapes};

use crate::Kind;
use crate::found::Found;
use terminals::first_char;

// The kind of a mark of one character.
fn mark_kind(mark: char) -> Option<Kind>
    ensures found { IfSome result (λ kind. In (mark, kind) marks) }
    ensures none { IfNone result ((kind : Kind) → ¬ (In (mark, kind) marks)) }
{
    match mark {
        '.' => Some(Kind::Dot),
        ';' => Some(Kind::Semicolon),
        ',' => Some(Kind::Comma),
        '{' => Some(Kind::LeftBrace),
        '}' => Some(Kind::RightBrace),
        '[' => Some(Kind::LeftBracket),
        ']' => Some(Kind::RightBracket),
        '(' => Some(Kind::LeftParen),
        ')' => Some(Kind::RightParen),
        _ => None,
    }
}

// The mark of one character at the front.
pub(crate) fn mark(text: &str) -> Option<Found<'_>>
    ensures found { IfSome result (λ x. TextBeginsWithLongest MarkShapes text.now x.kind x.rest.now) }
    ensures none { IfNone result (TextBeginsWithNoToken MarkShapes text.now) }
{
    let (first, rest) = first_char(text)?;
    let kind = mark_kind(first)?;
    Some(Found { kind, rest })
}
