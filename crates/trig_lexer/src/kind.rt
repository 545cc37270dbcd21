//! The kinds of tokens.

/// What kind of token a text is cut into: the words and marks of the grammar of TriG, and its
/// terminals (RDF 1.1 TriG, section 4).
#[derive(Clone, Copy, Debug, PartialEq, Eq)]
pub enum Kind {
    /// `@prefix`
    AtPrefix,
    /// `@base`
    AtBase,
    /// `PREFIX`, in any case
    WordPrefix,
    /// `BASE`, in any case
    WordBase,
    /// `GRAPH`, in any case
    WordGraph,
    /// `a`
    WordA,
    /// `true`
    WordTrue,
    /// `false`
    WordFalse,
    /// `.`
    Dot,
    /// `;`
    Semicolon,
    /// `,`
    Comma,
    /// `^^`
    Carets,
    /// `{`
    LeftBrace,
    /// `}`
    RightBrace,
    /// `[`
    LeftBracket,
    /// `]`
    RightBracket,
    /// `(`
    LeftParen,
    /// `)`
    RightParen,
    /// IRIREF
    IriRef,
    /// PNAME_NS
    PnameNs,
    /// PNAME_LN
    PnameLn,
    /// BLANK_NODE_LABEL
    BlankLabel,
    /// ANON
    Anon,
    /// INTEGER
    Integer,
    /// DECIMAL
    Decimal,
    /// DOUBLE
    Double,
    /// A string in any of its four forms.
    Quoted,
    /// LANGTAG
    LangTag,
    /// The end of the text.
    End,
}
