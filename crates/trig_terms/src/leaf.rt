//! What a token of a sentence stands for by itself.
use terminals::SpelledText;
use trig_lexer::Kind;

/// A token of a sentence, with what its characters stand for by themselves (RDF 1.1 TriG, section
/// 4.5).
#[derive(Drop)]
pub enum Leaf<'a> {
    /// A word or a mark.
    Mark(Kind),
    /// An IRIREF, its escapes undone.
    Iri(SpelledText<'a>),
    /// PNAME_NS without its `:`.
    Namespace(SpelledText<'a>),
    /// PNAME_LN: what stands before its first `:`, and its local part, its escapes undone.
    Name(SpelledText<'a>, SpelledText<'a>),
    /// BLANK_NODE_LABEL without its `_:`.
    Label(SpelledText<'a>),
    /// ANON
    Anonymous,
    /// A number or a truth value: its characters and its datatype.
    Typed(SpelledText<'a>, SpelledText<'a>),
    /// A string, its escapes undone.
    Quoted(SpelledText<'a>),
    /// LANGTAG without its `@`.
    Tag(SpelledText<'a>),
}
