//! The prefixes that a document has set.
ghost use Rattle.std.specs.Prelude.{◌≡◌, None, Some, OnOk, if◌then◌else◌, ℕ, List};
ghost use Rattle.std.specs.Option.{option_copied};
ghost use Rattle.std.specs.Str.{bytes_eq};
ghost use Rattle.rdf_terms.specs.Lists.{Text};
ghost use Rattle.trig_builder.specs.Building.{defined};

use rdf_terms::{NoMemory, TermText};
use std::alloc::Global;
use std::collections::HashMap;
use std::hash::RandomState;

// What each prefix was last set to.
#[derive(Drop)]
pub(crate) struct Prefixes {
    iris: HashMap<String, TermText, RandomState>,
}

impl Prefixes {
    // No prefix. The keys are those of the hashes by which prefixes are found; no answer depends
    // on them.
    pub(crate) fn new(alloc: Global, keys: RandomState) -> Self
        ensures { (prefix : Text) → defined result prefix ≡ None }
    {
        Prefixes {
            iris: HashMap::with_hasher(alloc, keys),
        }
    }

    pub(crate) fn get(&self, prefix: &str) -> Option<&str>
        ensures { option_copied result ≡ defined self.now prefix.now }
    {
        match self.iris.get(prefix) {
            Some(iri) => Some(iri.as_str()),
            None => None,
        }
    }

    // Sets the prefix to the IRI, whatever it was set to before.
    pub(crate) fn set(&mut self, alloc: Global, prefix: &str, iri: &str) -> Result<(), NoMemory>
        ensures { OnOk result ((q : Text) → defined self.new q ≡ (if bytes_eq prefix.now q then Some iri.now else defined self.old q)) }
    {
        let prefix = String::from_str(alloc, prefix)?;
        let iri = TermText::copy(alloc, iri)?;
        self.iris.insert(prefix, iri)?;
        Ok(())
    }
}
