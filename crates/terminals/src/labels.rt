//! Labels of blank nodes.

ghost use Rattle.std.specs.Prelude.{◌≡◌, ◌≤◌, length, drop, IfSome, IfNone};
ghost use Rattle.std.specs.List.{prefix_len};
ghost use Rattle.char_tables.specs.Classes.{is_ascii_pn};
ghost use Rattle.terminals.specs.Terminal.{TextBeginsWith, TextBeginsWithNone};
ghost use Rattle.terminals.specs.Terminals.{begins_label, ends_label, GoesOnAsLabelIn, BlankNodeLabel};

use crate::front_len;
use crate::fronts::{after, first_char};
use char_tables::{is_pn, is_pn_byte, is_pn_u_nq, is_pn_u_ttl};

/// Whose classes of characters a label is read by.
#[derive(Clone, Copy, Debug, PartialEq, Eq)]
pub enum Grammar {
    /// RDF 1.1 N-Quads, where a label may hold `:`.
    NQuads,
    /// RDF 1.1 TriG.
    TriG,
}

impl Grammar {
    #[inline]
    fn begins_label(self, c: char) -> bool
        ensures { result ≡ begins_label self c }
    {
        match self {
            Grammar::NQuads => is_pn_u_nq(c) || c.is_ascii_digit(),
            Grammar::TriG => is_pn_u_ttl(c) || c.is_ascii_digit(),
        }
    }

    #[inline]
    fn ends_label(self, c: char) -> bool
        ensures { result ≡ ends_label self c }
    {
        match self {
            Grammar::NQuads => is_pn(c) || c == ':',
            Grammar::TriG => is_pn(c),
        }
    }
}

// How many ASCII characters of PN_CHARS stand at the front.
#[inline]
fn ascii_len(text: &str) -> usize
    ensures is { result ≡ prefix_len is_ascii_pn text.now }
    ensures within { result ≤ length text.now }
{
    front_len!(text, |byte| is_pn_byte(**byte))
}

// What follows the ASCII characters of PN_CHARS at the front. By each of them a label may end.
#[inline]
fn after_ascii(text: &str) -> &str
    ensures { result.now ≡ drop (prefix_len is_ascii_pn text.now) text.now }
{
    &text[ascii_len(text)..]
}

// What follows the label whose first character stands before the text: a label may hold dots, but
// it does not end in one.
fn after_label(text: &str, grammar: Grammar) -> &str
    ensures { GoesOnAsLabelIn grammar text.now result.now }
{
    let mut end = after_ascii(text);
    let mut rest = end;
    while let Some((c, next)) = first_char(rest) {
        if grammar.ends_label(c) {
            end = after_ascii(next);
            rest = end;
        } else if c == '.' {
            rest = next;
        } else {
            break;
        }
    }
    end
}

/// The BLANK_NODE_LABEL at the front of the text (RDF 1.1 N-Quads, section 4): the label without
/// its `_:`, and what follows it.
pub fn blank_node_label(text: &str, grammar: Grammar) -> Option<(&str, &str)>
    ensures found { IfSome result (λ x. TextBeginsWith (BlankNodeLabel grammar) text.now x.0.now x.1.now) }
    ensures none { IfNone result (TextBeginsWithNone (BlankNodeLabel grammar) text.now) }
{
    let label = after(after(text, '_')?, ':')?;
    let (first, more) = first_char(label)?;
    if !grammar.begins_label(first) {
        return None;
    }
    let rest = after_label(more, grammar);
    Some((&label[..label.len() - rest.len()], rest))
}
