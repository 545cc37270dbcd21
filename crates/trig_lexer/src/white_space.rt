//! White space and comments.

ghost use Rattle.std.specs.Prelude.{◌≡◌, IfSome, IfNone};
ghost use Rattle.trig_lexer.specs.Fronts.{TextReads, TextReadsNone};
ghost use Rattle.trig_lexer.specs.WhiteSpace.{ends_line, is_white_space, IsLineThen, IsGapThen, BeginsWithNoGap, IsSkipped};

use terminals::first_char;

fn ends_line(c: char) -> bool
    ensures { result ≡ ends_line c }
{
    c == '\n' || c == '\r'
}

fn is_white_space(c: char) -> bool
    ensures { result ≡ is_white_space c }
{
    c == ' ' || c == '\t' || ends_line(c)
}

// What follows the characters up to the end of the line.
fn after_line(text: &str) -> &str
    ensures { TextReads IsLineThen text.now result.now }
{
    let mut rest = text;
    while let Some((c, next)) = first_char(rest) {
        if ends_line(c) {
            break;
        }
        rest = next;
    }
    rest
}

// What follows the character of white space or the comment at the front.
fn after_gap(text: &str) -> Option<&str>
    ensures found { IfSome result (λ rest. TextReads IsGapThen text.now rest.now) }
    ensures none { IfNone result (TextReadsNone BeginsWithNoGap text.now) }
{
    let (first, rest) = first_char(text)?;
    if is_white_space(first) {
        Some(rest)
    } else if first == '#' {
        Some(after_line(rest))
    } else {
        None
    }
}

// What follows the white space and the comments at the front.
pub(crate) fn after_gaps(text: &str) -> &str
    ensures { TextReads IsSkipped text.now result.now }
{
    let mut rest = text;
    while let Some(next) = after_gap(rest) {
        rest = next;
    }
    rest
}
