//! The next token of a text.

ghost use Rattle.std.specs.Prelude.{◌≢◌, ◌<◌, [], IfSome, IfNone};
ghost use Rattle.std.specs.Str.{IsCharBoundary};
ghost use Rattle.trig_lexer.specs.Longest.{TextBeginsWithNoToken};
ghost use Rattle.trig_lexer.specs.Fronts.{TextReads};
ghost use Rattle.trig_lexer.specs.Tokens.{IsToken, IsNext, IsTokenStart, IsTokenAt, HasNoTokenAt};
ghost use Rattle.trig_lexer.specs.declared.kind.Kind.TheVariants.{End};

use crate::Kind;
use crate::all_kinds::token;
use crate::found::Found;
use crate::white_space::after_gaps;

/// A token of a text, from its first byte up to the first byte behind it.
#[derive(Clone, Copy, Debug, PartialEq, Eq)]
pub struct Token {
    pub kind: Kind,
    pub start: usize,
    pub end: usize,
}

// The token at the front of a text that begins with no white space.
fn next(text: &str, after_string: bool) -> Option<Found<'_>>
    ensures found { IfSome result (λ x. TextReads (IsNext after_string x.kind) text.now x.rest.now) }
    ensures goes_on { IfNone result (text.now ≢ []) }
    ensures none { IfNone result (TextBeginsWithNoToken (IsToken after_string) text.now) }
{
    if text.is_empty() {
        return Some(Found {
            kind: Kind::End,
            rest: text,
        });
    }
    token(text, after_string)
}

/// Where the next token behind the place `at` should begin: behind the white space and the comments
/// that follow it. The text may be cut at `at`.
pub fn token_start(text: &str, at: usize) -> usize
    requires { IsCharBoundary text.now at }
    ensures starts { IsTokenStart text.now at result }
    ensures boundary { IsCharBoundary text.now result }
{
    text.len() - after_gaps(&text[at..]).len()
}

/// The next token behind the place `at`, which is one where the text may be cut. White space and
/// comments before the token are skipped. `after_string` says whether the token before it was a
/// string: `@prefix` and `@base` are language tags then.
pub fn next_token(text: &str, at: usize, after_string: bool) -> Option<Token>
    requires { IsCharBoundary text.now at }
    ensures found { IfSome result (λ token. IsTokenAt after_string text.now at token) }
    ensures none { IfNone result (HasNoTokenAt after_string text.now at) }
    ensures starts { IfSome result (λ token. IsCharBoundary text.now token.start) }
    ensures ends { IfSome result (λ token. IsCharBoundary text.now token.end) }

    // All tokens but the end of the text have characters.
    ensures goes_on { IfSome result (λ token. token.kind ≢ End → at < token.end) }
{
    let behind = after_gaps(&text[at..]);
    let found = next(behind, after_string)?;
    Some(Token {
        kind: found.kind,
        start: text.len() - behind.len(),
        end: text.len() - found.rest.len(),
    })
}
