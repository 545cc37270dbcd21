//! A literal as its line states it.
ghost use Rattle.std.specs.Prelude.{◌≡◌, ◌↔◌, IsTrue};
ghost use Rattle.rdf_terms.specs.References.{kind_of, literal_of};
ghost use Rattle.nquads_reader.specs.Document.{IsAbsoluteKind};
ghost use Rattle.nquads_reader.specs.Suffixes.{suffix_kind};

use iri_resolve::has_scheme;
use rdf_terms::{LiteralKindRef, LiteralRef};
use std::marker::Model;
use terminals::SpelledText;

// What stands behind a string: its datatype, or its tag.
#[derive(Drop)]
pub(crate) enum Suffix<'a> {
    Datatype(SpelledText<'a>),
    Tag(SpelledText<'a>),
}

impl Suffix<'_> {
    fn as_kind(&self) -> LiteralKindRef<'_>
        ensures { kind_of result ≡ suffix_kind self.now }
    {
        match self {
            Suffix::Datatype(iri) => LiteralKindRef::Typed(iri.as_str()),
            Suffix::Tag(tag) => LiteralKindRef::Tagged(tag.as_str()),
        }
    }

    fn is_absolute(&self) -> bool
        ensures { IsTrue result ↔ IsAbsoluteKind (suffix_kind self.now) }
    {
        match self {
            Suffix::Datatype(iri) => has_scheme(iri.as_str()),
            Suffix::Tag(_) => true,
        }
    }
}

// A literal as a line states it.
#[derive(Drop)]
pub(crate) struct StatedLiteral<'a> {
    lexical: SpelledText<'a>,
    suffix: Suffix<'a>,
}

impl<'a> Model for StatedLiteral<'a> {
    ghost use Rattle.rdf_terms.specs.declared.term.Literal.{Literal};
    ghost use Rattle.nquads_reader.specs.Suffixes.{suffix_kind};

    ghost Value = { Literal };

    ghost view = { λ l. record { lexical = l.lexical; kind = suffix_kind l.suffix } };
}

impl<'a> StatedLiteral<'a> {
    pub(crate) fn new(lexical: SpelledText<'a>, suffix: Suffix<'a>) -> Self
        ensures { result ≡ record { lexical = lexical.entry; kind = suffix_kind suffix.entry } }
    {
        StatedLiteral { lexical, suffix }
    }

    pub(crate) fn as_ref(&self) -> LiteralRef<'_>
        ensures { literal_of result ≡ self.now }
    {
        LiteralRef {
            lexical: self.lexical.as_str(),
            kind: self.suffix.as_kind(),
        }
    }

    // Whether its datatype, where it has one, has a scheme.
    pub(crate) fn is_absolute(&self) -> bool
        ensures { IsTrue result ↔ IsAbsoluteKind self.now.kind }
    {
        self.suffix.is_absolute()
    }
}
