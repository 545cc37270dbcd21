//! A string whose suffix may follow.
use terminals::SpelledText;

// A string whose suffix may follow (RDF 1.1 TriG, section 4.5, RDFLiteral).
#[derive(Drop)]
pub(crate) enum Pending<'a> {
    // No suffix was met yet.
    Plain(SpelledText<'a>),
    // `^^` was met, and the IRI of the datatype was not.
    AwaitsType(SpelledText<'a>),
}
