//! Words, and marks of two characters.

ghost use Rattle.std.specs.Prelude.{◌≡◌, IfSome, IfNone};
ghost use Rattle.std.specs.Str.{IsAscii};
ghost use Rattle.trig_lexer.specs.Longest.{Only, TextBeginsWithLongest, TextBeginsWithNoToken};
ghost use Rattle.trig_lexer.specs.Longer.{Finds};
ghost use Rattle.trig_lexer.specs.Words.{IsInAnyCase};
ghost use Rattle.trig_lexer.specs.Groups.{WordShapes};

use crate::Kind;
use crate::found::Found;
use crate::longer::longer;

// The word at the front, in these characters.
fn exact<'a>(text: &'a str, word: &str, kind: Kind) -> Option<Found<'a>>
    requires { IsAscii word.now }
    ensures found { IfSome result (λ x. TextBeginsWithLongest (Only kind (λ spelled. spelled ≡ word.now)) text.now x.kind x.rest.now) }
    ensures none { IfNone result (TextBeginsWithNoToken (Only kind (λ spelled. spelled ≡ word.now)) text.now) }
{
    let (front, rest) = text.split_at_checked(word.len())?;
    if front == word {
        Some(Found { kind, rest })
    } else {
        None
    }
}

// The word at the front, in any case.
fn any_case<'a>(text: &'a str, word: &str, kind: Kind) -> Option<Found<'a>>
    requires { IsAscii word.now }
    ensures found { IfSome result (λ x. TextBeginsWithLongest (Only kind (IsInAnyCase word.now)) text.now x.kind x.rest.now) }
    ensures none { IfNone result (TextBeginsWithNoToken (Only kind (IsInAnyCase word.now)) text.now) }
{
    let (front, rest) = text.split_at_checked(word.len())?;
    if front.eq_ignore_ascii_case(word) {
        Some(Found { kind, rest })
    } else {
        None
    }
}

// The word or the mark of two characters at the front.
pub(crate) fn word(text: &str) -> Option<Found<'_>>
    ensures { Finds WordShapes text.now result }
{
    let graph = any_case(text, "GRAPH", Kind::WordGraph);
    let base = any_case(text, "BASE", Kind::WordBase);
    let prefix = any_case(text, "PREFIX", Kind::WordPrefix);
    let falsehood = exact(text, "false", Kind::WordFalse);
    let truth = exact(text, "true", Kind::WordTrue);
    let verb = exact(text, "a", Kind::WordA);
    let carets = exact(text, "^^", Kind::Carets);
    let found = longer(prefix, longer(base, graph));
    longer(
        carets,
        longer(verb, longer(truth, longer(falsehood, found))),
    )
}
