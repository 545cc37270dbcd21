//! A document that was read whole.

ghost use Rattle.std.specs.Prelude.{◌≡◌};
ghost use Rattle.rdf_terms.specs.Document.{IsDocument};

use crate::{Label, Lexicon, Quad, TermTable};
use indexmap::IndexSet;
use std::hash::RandomState;
use std::marker::Model;

/// A document that was read whole: each node stands in a quad.
#[derive(Drop)]
pub struct Parsed {
    terms: TermTable,
    quads: IndexSet<Quad, RandomState>,
    labels: IndexSet<Label, RandomState>,
}

impl Model for Parsed {
    ghost use Rattle.rdf_terms.specs.Document.{Document, IsDocument};

    ghost Value = { Document };

    ghost view = { λ d. record { terms = d.terms; quads = d.quads.keys; labels = d.labels.keys } };

    ghost invariant = { λ d. IsDocument (record { terms = d.terms; quads = d.quads.keys; labels = d.labels.keys }) };
}

impl Parsed {
    pub(crate) fn new(
        terms: TermTable,
        quads: IndexSet<Quad, RandomState>,
        labels: IndexSet<Label, RandomState>,
    ) -> Self
        requires { IsDocument (record { terms = terms; quads = quads.keys; labels = labels.keys }) }
        ensures { result ≡ record { terms = terms; quads = quads.keys; labels = labels.keys } }
    {
        Parsed {
            terms,
            quads,
            labels,
        }
    }

    pub fn terms(&self) -> &TermTable
        ensures { result.now ≡ self.now.terms }
    {
        &self.terms
    }

    /// The quads, each once, in order of first appearance.
    pub fn quads(&self) -> &[Quad]
        ensures quads { result.now ≡ self.now.quads }
        ensures document { IsDocument self.now }
    {
        self.quads.as_slice()
    }

    /// The labels, by node.
    pub fn labels(&self) -> &[Label]
        ensures labels { result.now ≡ self.now.labels }
        ensures document { IsDocument self.now }
    {
        self.labels.as_slice()
    }
    /// Gives the memory of the quads back.
    pub fn into_lexicon(self) -> Lexicon
        ensures { result ≡ record { terms = self.terms; labels = self.labels } }
    {
        let Parsed {
            terms,
            quads: _,
            labels,
        } = self;
        Lexicon::new(terms, labels)
    }
}
