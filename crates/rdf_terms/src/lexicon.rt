//! The terms and labels of a document.

ghost use Rattle.std.specs.Prelude.{◌≡◌};

use crate::{Label, TermTable};
use indexmap::IndexSet;
use std::hash::RandomState;
use std::marker::Model;

/// What a document holds apart from its quads: its terms, and what it calls its nodes.
#[derive(Drop)]
pub struct Lexicon {
    terms: TermTable,
    labels: IndexSet<Label, RandomState>,
}

impl Model for Lexicon {
    ghost use Rattle.rdf_terms.specs.Lexicon.{Lexicon as Words};

    ghost Value = { Words };

    ghost view = { λ l. record { terms = l.terms; labels = l.labels.keys } };
}

impl Lexicon {
    pub(crate) fn new(terms: TermTable, labels: IndexSet<Label, RandomState>) -> Self
        ensures { result ≡ record { terms = terms; labels = labels.keys } }
    {
        Lexicon { terms, labels }
    }

    pub fn terms(&self) -> &TermTable
        ensures { result.now ≡ self.now.terms }
    {
        &self.terms
    }

    /// The labels, by node.
    pub fn labels(&self) -> &[Label]
        ensures { result.now ≡ self.now.labels }
    {
        self.labels.as_slice()
    }
}
