//! The paths of the permutations of one group: the one at hand, and the chosen one.

ghost use Rattle.std.specs.Prelude.{◌≡◌, ◌++◌, [], true, false, Some, OnOk, OnErr, if◌then◌else◌};
ghost use Rattle.std.specs.Str.{bytes_eq};
ghost use Rattle.rdf_terms.specs.Lists.{is_before};
ghost use Rattle.canon_model.specs.Issuer.{label};
ghost use Rattle.canon_model.specs.CountedRun.{skips};
ghost use Rattle.ndegree_hash.specs.Agreement.{Agree};
ghost use Rattle.ndegree_hash.specs.PathChoice.{chosen_if};

use crate::label::push_label;
use id_issuer::Issuer;
use rdf_terms::{NoMemory, Prefix};
use std::alloc::Global;
use std::marker::Model;
use std::mem;

// The path at hand and the chosen one. How far they agree is kept, so that a test whether the
// permutation is skipped looks at what was written since the last one alone.
#[derive(Drop)]
pub(crate) struct Paths {
    path: Vec<u8>,
    has_choice: bool,
    chosen: Vec<u8>,
    agree: usize,
}

impl Model for Paths {
    ghost use Rattle.ndegree_hash.specs.Agreement.{Agree};
    ghost use Rattle.ndegree_hash.specs.PathChoice.{PathChoice};

    ghost Value = { PathChoice };

    ghost view = { λ p. record { path = p.path.items; has_choice = p.has_choice; chosen = p.chosen.items } };

    ghost invariant = { λ p. Agree p.agree p.path.items p.chosen.items };
}

impl Paths {
    // No path, and no choice.
    pub(crate) fn new(alloc: Global) -> Self
        ensures { result ≡ record { path = []; has_choice = false; chosen = [] } }
    {
        Paths {
            path: Vec::new(alloc),
            has_choice: false,
            chosen: Vec::new(alloc),
            agree: 0,
        }
    }

    // Nothing is chosen any more.
    pub(crate) fn forget(&mut self)
        ensures { self.new ≡ record { path = self.old.path; has_choice = false; chosen = self.old.chosen } }
    {
        self.has_choice = false;
    }

    // Begins the path of a permutation.
    pub(crate) fn begin_path(&mut self)
        ensures { self.new ≡ record { path = []; has_choice = self.old.has_choice; chosen = self.old.chosen } }
    {
        self.path.clear();
        self.agree = 0;
    }

    // Appends to the path.
    pub(crate) fn push(&mut self, text: &[u8]) -> Result<(), NoMemory>
        ensures ok { OnOk result (self.new ≡ record { path = self.old.path ++ text.now; has_choice = self.old.has_choice; chosen = self.old.chosen }) }
        ensures err { OnErr result (self.new ≡ self.old) }
    {
        self.path.extend_from_slice(text)?;
        Ok(())
    }

    // Appends the identifier of a node to the path.
    pub(crate) fn push_label(
        &mut self,
        canon: &Issuer,
        trail: &Issuer,
        node: u32,
    ) -> Result<(), NoMemory>
        requires canonical { canon.now.prefix ≡ Prefix.Canonical }
        requires temporary { trail.now.prefix ≡ Prefix.Temporary }
        ensures ok { OnOk result (self.new ≡ record { path = self.old.path ++ label canon.now.list trail.now.list node; has_choice = self.old.has_choice; chosen = self.old.chosen }) }
        ensures err { OnErr result (self.new ≡ self.old) }
    {
        push_label(&mut self.path, canon, trail, node)?;
        Ok(())
    }

    // Whether the permutation is skipped at the path at hand (RDF Dataset Canonicalization, section
    // 4.8, steps 5.4.4.3 and 5.4.5.5).
    pub(crate) fn is_past(&mut self) -> bool
        ensures skips { result ≡ skips (chosen_if self.old.has_choice self.old.chosen) self.old.path }
        ensures unchanged { self.new ≡ self.old }
    {
        if !self.has_choice {
            return false;
        }
        self.agree = agreement(self.path.as_slice(), self.chosen.as_slice(), self.agree);
        is_longer_and_past(self.path.as_slice(), self.chosen.as_slice(), self.agree)
    }

    // Whether a path is chosen.
    pub(crate) fn has_choice(&self) -> bool
        ensures { result ≡ self.now.has_choice }
    {
        self.has_choice
    }

    // Whether the path at hand is to be chosen, because nothing is or it is less.
    pub(crate) fn is_better(&self) -> bool
        ensures { result ≡ (if self.now.has_choice then is_before self.now.path self.now.chosen else true) }
    {
        if self.has_choice {
            comes_before(self.path.as_slice(), self.chosen.as_slice())
        } else {
            true
        }
    }

    // Whether the path at hand is the chosen one.
    pub(crate) fn is_same(&self) -> bool
        ensures { result ≡ bytes_eq self.now.path self.now.chosen }
    {
        self.path.as_slice() == self.chosen.as_slice()
    }

    // The path at hand is chosen.
    pub(crate) fn choose_path(&mut self)
        ensures { self.new ≡ record { path = self.old.chosen; has_choice = true; chosen = self.old.path } }
    {
        mem::swap(&mut self.path, &mut self.chosen);
        self.has_choice = true;
    }

    // The chosen path.
    pub(crate) fn chosen(&self) -> &[u8]
        ensures { result.now ≡ self.now.chosen }
    {
        self.chosen.as_slice()
    }
}

// How far the path and the chosen one agree, where they do so in the first places.
fn agreement(path: &[u8], chosen: &[u8], from: usize) -> usize
    requires { Agree from path.now chosen.now }
    ensures { Agree result path.now chosen.now }
{
    let to = path.len().min(chosen.len());
    if path[from..to] == chosen[from..to] {
        to
    } else {
        from
    }
}

// Whether the path is at least as long as the chosen one and behind it, where they agree in the first
// places.
fn is_longer_and_past(path: &[u8], chosen: &[u8], agree: usize) -> bool
    requires { Agree agree path.now chosen.now }
    ensures { result ≡ skips (Some chosen.now) path.now }
{
    if chosen.len() <= path.len() {
        comes_before(&chosen[agree..], &path[agree..])
    } else {
        false
    }
}

// Whether one text is before another in byte order.
fn comes_before(a: &[u8], b: &[u8]) -> bool
    ensures { result ≡ is_before a.now b.now }
{
    a.cmp(b).is_lt()
}
