//! Language tags.

ghost use Rattle.std.specs.Prelude.{◌≡◌, ◌≤◌, ℕ, List, length, drop, IfSome, IfNone};
ghost use Rattle.std.specs.Char.{is_ascii_alphabetic, is_ascii_alphanumeric};
ghost use Rattle.std.specs.List.{prefix_len};
ghost use Rattle.terminals.specs.Terminal.{TextBeginsWith, TextBeginsWithNone};
ghost use Rattle.terminals.specs.Terminals.{LangTag, BeginsWithSubtag, BeginsWithNoSubtag, BeginsWithSubtags};

use crate::front_len;
use crate::fronts::after;

// How many letters stand at the front.
fn letters_len(text: &str) -> usize
    ensures is { result ≡ prefix_len is_ascii_alphabetic text.now }
    ensures within { result ≤ length text.now }
{
    front_len!(text, |byte| byte.is_ascii_alphabetic())
}

// How many letters and digits stand at the front.
fn alphanumeric_len(text: &str) -> usize
    ensures is { result ≡ prefix_len is_ascii_alphanumeric text.now }
    ensures within { result ≤ length text.now }
{
    front_len!(text, |byte| byte.is_ascii_alphanumeric())
}

// What follows the `-` and the longest subtag at the front.
fn after_subtag(text: &str) -> Option<&str>
    ensures found { IfSome result (λ rest. BeginsWithSubtag text.now rest.now) }
    ensures none { IfNone result (BeginsWithNoSubtag text.now) }
{
    let subtag = after(text, '-')?;
    let len = alphanumeric_len(subtag);
    if len == 0 { None } else { Some(&subtag[len..]) }
}

// What follows as many subtags as stand at the front, each behind a `-`.
fn after_subtags(text: &str) -> &str
    ensures { BeginsWithSubtags text.now result.now }
{
    let mut rest = text;
    while let Some(next) = after_subtag(rest) {
        rest = next;
    }
    rest
}

/// The LANGTAG at the front of the text (RDF 1.1 N-Quads, section 4): the tag without its `@`, and
/// what follows it.
pub fn langtag(text: &str) -> Option<(&str, &str)>
    ensures found { IfSome result (λ x. TextBeginsWith LangTag text.now x.0.now x.1.now) }
    ensures none { IfNone result (TextBeginsWithNone LangTag text.now) }
{
    let tag = after(text, '@')?;
    let len = letters_len(tag);
    if len == 0 {
        return None;
    }
    let rest = after_subtags(&tag[len..]);
    Some((&tag[..tag.len() - rest.len()], rest))
}
