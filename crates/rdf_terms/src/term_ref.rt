//! Terms whose texts lie elsewhere.

ghost use Rattle.std.specs.Prelude.{◌≡◌, IfOk};
ghost use Rattle.rdf_terms.specs.References.{kind_of, literal_of, term_of, label_of};
ghost use Rattle.rdf_terms.specs.contracts.term.TermPartialEq.TheImpl.{eq-value as eq_term};
ghost use Rattle.rdf_terms.specs.contracts.term.LabelPartialEq.TheImpl.{eq-value as eq_label};
ghost use Rattle.rdf_terms.specs.contracts.term.LiteralPartialEq.TheImpl.{eq-value as eq_literal};
ghost use Rattle.rdf_terms.specs.contracts.term.LiteralKindPartialEq.TheImpl.{eq-value as eq_kind};
ghost use Rattle.rdf_terms.specs.contracts.term.LabelEq.TheImpl.Laws.{laws-law as label_law};
ghost use Rattle.rdf_terms.specs.contracts.term.LabelHash.TheImpl.Laws.{respects_eq-law as alike_labels};
ghost use Rattle.rdf_terms.specs.FedAlike.{hash-label_of};
ghost use Rattle.std.proofs.Common.{◌∙◌};

use crate::{Label, Literal, LiteralKind, NoMemory, Term, TermText};
use indexmap::Equivalent;
use std::alloc::Global;

/// A term whose texts lie elsewhere, as in the line that states it.
#[derive(Clone, Copy, Debug, PartialEq, Eq)]
pub enum TermRef<'a> {
    Iri(&'a str),
    Blank(u32),
    Literal(LiteralRef<'a>),
}

/// A literal whose texts lie elsewhere.
#[derive(Clone, Copy, Debug, PartialEq, Eq, Hash)]
pub struct LiteralRef<'a> {
    pub lexical: &'a str,
    pub kind: LiteralKindRef<'a>,
}

/// The datatype's IRI or the language tag of a literal, lying elsewhere.
#[derive(Clone, Copy, Debug, PartialEq, Eq, Hash)]
pub enum LiteralKindRef<'a> {
    Typed(&'a str),
    Tagged(&'a str),
}

/// A quad by its terms, whose texts lie elsewhere.
#[derive(Clone, Copy, Debug)]
pub struct StatementRef<'a> {
    pub subject: TermRef<'a>,
    pub predicate: TermRef<'a>,
    pub object: TermRef<'a>,
    pub graph_name: Option<TermRef<'a>>,
}

/// A label whose characters lie elsewhere.
#[derive(Clone, Copy, Debug, PartialEq, Eq, Hash)]
pub enum LabelRef<'a> {
    Named(&'a str),
    Anonymous(u32),
}

impl LiteralKind {
    fn as_ref(&self) -> LiteralKindRef<'_>
        ensures { kind_of result ≡ self.now }
    {
        match self {
            LiteralKind::Typed(iri) => LiteralKindRef::Typed(iri.as_str()),
            LiteralKind::Tagged(tag) => LiteralKindRef::Tagged(tag.as_str()),
        }
    }
}

impl Literal {
    fn as_ref(&self) -> LiteralRef<'_>
        ensures { literal_of result ≡ self.now }
    {
        LiteralRef {
            lexical: self.lexical.as_str(),
            kind: self.kind.as_ref(),
        }
    }
}

impl Term {
    /// The term by reference.
    pub fn as_ref(&self) -> TermRef<'_>
        ensures { term_of result ≡ self.now }
    {
        match self {
            Term::Iri(iri) => TermRef::Iri(iri.as_str()),
            Term::Blank(node) => TermRef::Blank(*node),
            Term::Literal(literal) => TermRef::Literal(literal.as_ref()),
        }
    }
}

impl LiteralKindRef<'_> {
    fn to_kind(self, alloc: Global) -> Result<LiteralKind, NoMemory>
        ensures { IfOk result (λ kind. kind ≡ kind_of self.entry) }
    {
        match self {
            LiteralKindRef::Typed(iri) => Ok(LiteralKind::Typed(TermText::copy(alloc, iri)?)),
            LiteralKindRef::Tagged(tag) => Ok(LiteralKind::Tagged(TermText::copy(alloc, tag)?)),
        }
    }
}

impl LiteralRef<'_> {
    fn to_literal(self, alloc: Global) -> Result<Literal, NoMemory>
        ensures { IfOk result (λ literal. literal ≡ literal_of self.entry) }
    {
        let lexical = TermText::copy(alloc, self.lexical)?;
        let kind = self.kind.to_kind(alloc)?;
        Ok(Literal { lexical, kind })
    }
}

impl TermRef<'_> {
    /// A term with texts of its own.
    pub fn to_term(self, alloc: Global) -> Result<Term, NoMemory>
        ensures { IfOk result (λ term. term ≡ term_of self.entry) }
    {
        match self {
            TermRef::Iri(iri) => Ok(Term::Iri(TermText::copy(alloc, iri)?)),
            TermRef::Blank(node) => Ok(Term::Blank(node)),
            TermRef::Literal(literal) => Ok(Term::Literal(literal.to_literal(alloc)?)),
        }
    }
}

impl LabelRef<'_> {
    /// A label with characters of its own.
    pub fn to_label(self, alloc: Global) -> Result<Label, NoMemory>
        ensures { IfOk result (λ label. label ≡ label_of self.entry) }
    {
        match self {
            LabelRef::Named(name) => Ok(Label::Named(TermText::copy(alloc, name)?)),
            LabelRef::Anonymous(number) => Ok(Label::Anonymous(number)),
        }
    }
}

impl LiteralKindRef<'_> {
    #[inline]
    fn is(&self, kind: &LiteralKind) -> bool
        ensures { result ≡ eq_kind.it (kind_of self.now) kind.now }
    {
        match (self, kind) {
            (LiteralKindRef::Typed(iri), LiteralKind::Typed(known)) => *iri == known.as_str(),
            (LiteralKindRef::Tagged(tag), LiteralKind::Tagged(known)) => *tag == known.as_str(),
            _ => false,
        }
    }
}

impl LiteralRef<'_> {
    #[inline]
    fn is(&self, literal: &Literal) -> bool
        ensures { result ≡ eq_literal.it (literal_of self.now) literal.now }
    {
        self.lexical == literal.lexical.as_str() && self.kind.is(&literal.kind)
    }
}

impl TermRef<'_> {
    // Whether it stands for the term.
    #[inline]
    pub(crate) fn is(&self, term: &Term) -> bool
        ensures { result ≡ eq_term.it (term_of self.now) term.now }
    {
        match (self, term) {
            (TermRef::Iri(iri), Term::Iri(known)) => *iri == known.as_str(),
            (TermRef::Blank(node), Term::Blank(known)) => *node == *known,
            (TermRef::Literal(literal), Term::Literal(known)) => literal.is(known),
            _ => false,
        }
    }
}

impl Equivalent<Label> for LabelRef<'_> {
    ghost equivalent = { λ q k. eq_label.it (label_of q) k };

    ghost respects_hash = { λ q k h. hash-label_of q ∙ alike_labels (label_of q) k h };

    ghost respects_eq = { λ q. label_law.congr (label_of q) };

    fn equivalent(&self, key: &Label) -> bool {
        match (self, key) {
            (LabelRef::Named(name), Label::Named(known)) => *name == known.as_str(),
            (LabelRef::Anonymous(number), Label::Anonymous(known)) => *number == *known,
            _ => false,
        }
    }
}
