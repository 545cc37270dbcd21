//! What begins with `@`.

ghost use Rattle.std.specs.Prelude.{IfSome, IfNone};
ghost use Rattle.trig_lexer.specs.Longest.{TextBeginsWithLongest, TextBeginsWithNoToken};
ghost use Rattle.trig_lexer.specs.Groups.{AtShapes, IsKindOfTag};

use crate::Kind;
use crate::found::Found;
use terminals::langtag;

// The kind of what is written as `@` and the tag.
fn tag_kind(tag: &str, after_string: bool) -> Kind
    ensures { IsKindOfTag after_string tag.now result }
{
    if after_string {
        Kind::LangTag
    } else if tag == "prefix" {
        Kind::AtPrefix
    } else if tag == "base" {
        Kind::AtBase
    } else {
        Kind::LangTag
    }
}

// The `@prefix`, `@base` or language tag at the front.
pub(crate) fn at_word(text: &str, after_string: bool) -> Option<Found<'_>>
    ensures found { IfSome result (λ x. TextBeginsWithLongest (AtShapes after_string) text.now x.kind x.rest.now) }
    ensures none { IfNone result (TextBeginsWithNoToken (AtShapes after_string) text.now) }
{
    let (tag, rest) = langtag(text)?;
    Some(Found {
        kind: tag_kind(tag, after_string),
        rest,
    })
}
