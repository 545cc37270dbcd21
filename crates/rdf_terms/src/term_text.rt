//! The text of a term.

ghost use Rattle.std.specs.Prelude.{◌≡◌, IfOk};
ghost use Rattle.std.specs.Str.{bytes_eq};
ghost use Rattle.std.specs.Hash as fed;
ghost use Rattle.std.specs.Cmp.Rules.{comparing, hashing};
ghost use Rattle.std.proofs.Common.{rules};
ghost use Rattle.rdf_terms.specs.StoredText.{stored_bytes};
ghost use Rattle.rdf_terms.specs.declared.inline_text.InlineText.{InlineText};
ghost use Rattle.rdf_terms.specs.declared.term_text.Stored.TheVariants.{Inline};

use crate::NoMemory;
use crate::inline_text::InlineText;
use crate::known_text::known_text;
use std::alloc::Global;
use std::hash::{Hash, Hasher};
use std::marker::Model;

#[derive(Debug, Drop)]
enum Stored {
    Inline(InlineText),
    Known(&'static str),
    Apart(String),
}

impl Stored {
    // Of a text that is too long to lie in the value.
    fn of_long(alloc: Global, text: &str) -> Result<Self, NoMemory>
        ensures { IfOk result (λ s. stored_bytes s ≡ text.now) }
    {
        match known_text(text) {
            Some(known) => Ok(Stored::Known(known)),
            None => Ok(Stored::Apart(String::from_str(alloc, text)?)),
        }
    }

    // The text of one outside the value: a place and a length, whichever kind it is of, so that the
    // kinds need not be told apart.
    fn outer_text(&self) -> &str
        requires { (text : InlineText) → ¬ (self.now ≡ Inline text) }
        ensures { result.now ≡ stored_bytes self.now }
    {
        match self {
            Stored::Inline(_) => unreachable!(),
            Stored::Known(text) => text,
            Stored::Apart(text) => text.as_str(),
        }
    }
}

/// The text of an IRI, a lexical form, a language tag or a label, in UTF-8. A short one, and the
/// IRI of a common datatype, take no memory of their own.
#[derive(Debug, Drop)]
pub struct TermText {
    stored: Stored,
}

// Half of a line of the cache, so that a look at a term's text touches few lines.
const _: () = prove!(size_of::<TermText>() == 32);

impl Model for TermText {
    ghost use Rattle.std.specs.Prelude.{ℕ, List};
    ghost use Rattle.rdf_terms.specs.StoredText.{stored_bytes};

    ghost Value = { List ℕ };

    ghost view = { λ t. stored_bytes t.stored };
}

impl TermText {
    #[inline]
    pub fn copy(alloc: Global, text: &str) -> Result<Self, NoMemory>
        ensures { IfOk result (λ t. t ≡ text.now) }
    {
        let stored = match InlineText::copy(text) {
            Some(inline) => Stored::Inline(inline),
            None => Stored::of_long(alloc, text)?,
        };
        Ok(TermText { stored })
    }

    #[inline]
    pub fn as_str(&self) -> &str
        ensures { result.now ≡ self.now }
    {
        match &self.stored {
            Stored::Inline(text) => text.as_str(),
            outer => outer.outer_text(),
        }
    }
}

impl PartialEq for TermText {
    ghost eq = { bytes_eq };

    ghost laws = { Prim.search (comparing, rules) };

    fn eq(&self, other: &Self) -> bool {
        self.as_str() == other.as_str()
    }
}

impl Eq for TermText {
    ghost laws = { Prim.search (comparing, rules) };
}

impl Hash for TermText {
    ghost hash_input = { λ t. fed.str t };

    ghost respects_eq = { Prim.search (hashing, rules) };

    fn hash<H: Hasher>(&self, state: &mut H) {
        self.as_str().hash(state);
    }
}
