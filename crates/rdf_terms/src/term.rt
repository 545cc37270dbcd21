//! Terms, literals, labels and quads.

use crate::TermText;

/// A term of RDF (RDF 1.1 Concepts, section 3): an IRI, a blank node or a literal.
///
/// A blank node is known by its number in its document, counted from 0.
#[derive(Debug, PartialEq, Eq, Drop)]
pub enum Term {
    Iri(TermText),
    Blank(u32),
    Literal(Literal),
}

// A look-up of a term waits for its entry of the table, so an entry touches few lines of the cache.
const _: () = prove!(size_of::<Term>() == 80);

/// A literal (RDF 1.1 Concepts, section 3.3).
#[derive(Debug, PartialEq, Eq, Hash, Drop)]
pub struct Literal {
    pub lexical: TermText,
    pub kind: LiteralKind,
}

/// What makes a literal more than its lexical form: its datatype's IRI, or its language tag.
///
/// A string with neither behind it is typed, with the IRI of `xsd:string`.
#[derive(Debug, PartialEq, Eq, Hash, Drop)]
pub enum LiteralKind {
    Typed(TermText),
    Tagged(TermText),
}

/// A quad, by the numbers of its terms in a table: subject, predicate, object and graph name.
#[derive(Clone, Copy, Debug, PartialEq, Eq, PartialOrd, Ord)]
pub struct Quad {
    pub s: u32,
    pub p: u32,
    pub o: u32,
    pub g: Option<u32>,
}

/// What a document calls a blank node: by the characters behind `_:`, or not at all, which makes
/// the node known by its number among all anonymous nodes of the document, counted from 0.
#[derive(Debug, PartialEq, Eq, Hash, Drop)]
pub enum Label {
    Named(TermText),
    Anonymous(u32),
}

/// The prefix of issued identifiers (RDF Dataset Canonicalization, section 4.3): `c14n` of the
/// canonical issuer, `b` of a temporary one.
#[derive(Clone, Copy, Debug, PartialEq, Eq)]
pub enum Prefix {
    Canonical,
    Temporary,
}
