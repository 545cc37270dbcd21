//! Lines in one buffer.

ghost use Rattle.std.specs.Prelude.{◌≡◌, ◌<◌, ◌≤◌, ◌-◌, ◌++◌, [], ◌∷◌, length, map, sum, take, IfOk, OnOk, OnErr, IsTrue, ◌↔◌};
ghost use Rattle.rdf_terms.specs.CanonicalForm.{canonical_line};
ghost use Rattle.rdf_terms.specs.Document.{statement, term_at, IsInRange};
ghost use Rattle.rdf_terms.specs.Lists.{Text, joined, sorted};
ghost use Rattle.canonical_writer.specs.Names.{naming_of, HasNames, IsNamed};
ghost use Rattle.canonical_writer.specs.Pieces.{pieces};
ghost use Rattle.canonical_writer.specs.Runs.{line_start};

use crate::line::{append_behind, append_line, cut_off, push_place};
use crate::named_terms::NamedTerms;
use crate::names::Names;
use rdf_terms::{NoMemory, Quad, TermTable};
use std::alloc::Global;
use std::marker::Model;

/// Canonical lines in one buffer, which can be emptied and filled again.
#[derive(Drop)]
pub struct Lines {
    text: Vec<u8>,
    lengths: Vec<usize>,
}

impl Model for Lines {
    ghost use Rattle.std.specs.Prelude.{◌≡◌, List, length, sum};
    ghost use Rattle.rdf_terms.specs.Lists.{Text};
    ghost use Rattle.canonical_writer.specs.Pieces.{pieces};

    ghost Value = { List Text };

    ghost view = { λ l. pieces l.text.items l.lengths.items };

    ghost invariant = { λ l. sum l.lengths.items ≡ length l.text.items };
}

impl Lines {
    pub fn new(alloc: Global) -> Self
        ensures { result ≡ [] }
    {
        Lines {
            text: Vec::new(alloc),
            lengths: Vec::new(alloc),
        }
    }

    // Makes room for so many more lines, and so many bytes of them. More may come.
    pub(crate) fn reserve(&mut self, lines: usize, bytes: usize) -> Result<(), NoMemory>
        ensures { self.new ≡ self.old }
    {
        self.lengths.reserve(lines)?;
        self.text.reserve(bytes)?;
        Ok(())
    }

    /// How many lines there are.
    pub fn len(&self) -> usize
        ensures { result ≡ length self.now }
    {
        self.lengths.len()
    }

    pub fn is_empty(&self) -> bool
        ensures { IsTrue result ↔ (self.now ≡ []) }
    {
        self.len() == 0
    }

    /// The lines one after the other, in the order in which they came.
    pub fn text(&self) -> &[u8]
        ensures { result.now ≡ joined self.now }
    {
        self.text.as_slice()
    }

    // How long each line is, in bytes.
    pub(crate) fn lengths(&self) -> &[usize]
        ensures { result.now ≡ map length self.now }
    {
        self.lengths.as_slice()
    }

    /// Leaves no line, and keeps the memory.
    pub fn clear(&mut self)
        ensures { self.new ≡ [] }
    {
        self.text.clear();
        self.lengths.clear();
    }

    /// Adds the canonical line of a quad. After an `Err` the lines are as before.
    pub fn push<N: Names>(
        &mut self,
        terms: &TermTable,
        quad: Quad,
        names: &N,
    ) -> Result<(), NoMemory>
        requires in_range { IsInRange terms.now quad }
        requires named { HasNames (N.name names.now) (statement terms.now quad) }
        ensures pushed { OnOk result (self.new ≡ self.old ++ canonical_line (naming_of (N.name names.now)) (statement terms.now quad) ∷ []) }
        ensures err { OnErr result (self.new ≡ self.old) }
    {
        let before = self.text.len();
        let written = append_line(&mut self.text, &NamedTerms { terms, names }, quad);
        end_line(&mut self.text, &mut self.lengths, before, written)
    }

    // The same as `push`, of a line whose start is at hand.
    pub(crate) fn push_behind<N: Names>(
        &mut self,
        start: &[u8],
        named: &NamedTerms<'_, N>,
        quad: Quad,
    ) -> Result<(), NoMemory>
        requires start { start.now ≡ line_start (naming_of (N.name named.now.names.now)) (term_at named.now.terms.now quad.s) }
        requires in_range { IsInRange named.now.terms.now quad }
        requires named { HasNames (N.name named.now.names.now) (statement named.now.terms.now quad) }
        ensures { OnOk result (self.new ≡ self.old ++ canonical_line (naming_of (N.name named.now.names.now)) (statement named.now.terms.now quad) ∷ []) }
    {
        let before = self.text.len();
        let written = append_behind(&mut self.text, start, named, quad);
        end_line(&mut self.text, &mut self.lengths, before, written)
    }

    // Adds the start of a line alone: a subject, and the space behind it.
    pub(crate) fn push_start<N: Names>(
        &mut self,
        named: &NamedTerms<'_, N>,
        subject: u32,
    ) -> Result<(), NoMemory>
        requires in_range { subject < length named.now.terms.now }
        requires named { IsNamed (N.name named.now.names.now) (term_at named.now.terms.now subject) }
        ensures { OnOk result (self.new ≡ self.old ++ line_start (naming_of (N.name named.now.names.now)) (term_at named.now.terms.now subject) ∷ []) }
    {
        let before = self.text.len();
        let written = push_place(&mut self.text, named, subject);
        end_line(&mut self.text, &mut self.lengths, before, written)
    }

    // The lines in the order in which they came.
    pub(crate) fn split(&self, alloc: Global) -> Result<Vec<&[u8]>, NoMemory>
        ensures { IfOk result (λ v. map (λ p. p.now) v.items ≡ self.now) }
    {
        cut(alloc, self.text.as_slice(), self.lengths.as_slice())
    }

    /// The lines in byte order.
    pub fn sorted(&self, alloc: Global) -> Result<Vec<&[u8]>, NoMemory>
        ensures { IfOk result (λ v. map (λ p. p.now) v.items ≡ sorted self.now) }
    {
        let mut lines = self.split(alloc)?;
        lines.sort_unstable();
        Ok(lines)
    }

    // Appends the lines in byte order.
    #[tactic(auto, using(crate::proofs::Pieces::sorted_short))]
    pub(crate) fn append_sorted(&self, alloc: Global, out: &mut Vec<u8>) -> Result<(), NoMemory>
        ensures { OnOk result (out.new.items ≡ out.old.items ++ joined (sorted self.now)) }
    {
        if self.len() < 2 {
            out.extend_from_slice(self.text())?;
            return Ok(());
        }
        let lines = self.sorted(alloc)?;
        append_all(out, lines.as_slice())
    }
}

// Ends the line that was written behind the text from this place on. Where it was not written whole, or there is
// no memory for its length, the text is cut off again.
#[inline]
fn end_line(
    text: &mut Vec<u8>,
    lengths: &mut Vec<usize>,
    before: usize,
    written: Result<(), NoMemory>,
) -> Result<(), NoMemory>
    requires { before ≤ length text.old.items }
    ensures added { (old line : Text) → OnOk written (text.old.items ≡ old ++ line) → before ≡ length old → sum lengths.old.items ≡ length old → OnOk result (pieces text.new.items lengths.new.items ≡ pieces old lengths.old.items ++ line ∷ []) }
    ensures fit { sum lengths.old.items ≡ before → sum lengths.new.items ≡ length text.new.items }
    ensures cut_off { OnErr result (text.new.items ≡ take before text.old.items) }
    ensures no_length { OnErr result (lengths.new.items ≡ lengths.old.items) }
{
    if written.is_ok() && lengths.push(text.len() - before).is_ok() {
        return Ok(());
    }
    cut_off(text, before)
}

// Cuts a text into pieces of these lengths, which lie one after the other from its start.
fn cut<'a>(alloc: Global, text: &'a [u8], lengths: &[usize]) -> Result<Vec<&'a [u8]>, NoMemory>
    requires { sum lengths.now ≤ length text.now }
    ensures { IfOk result (λ v. map (λ p. p.now) v.items ≡ pieces text.now lengths.now) }
{
    let mut parts = Vec::with_capacity(alloc, lengths.len())?;
    let mut rest = text;
    for length in lengths {
        let (piece, behind) = rest.split_at(*length);
        parts.push(piece)?;
        rest = behind;
    }
    Ok(parts)
}

// Appends the texts one after the other.
fn append_all(out: &mut Vec<u8>, texts: &[&[u8]]) -> Result<(), NoMemory>
    ensures { OnOk result (out.new.items ≡ out.old.items ++ joined (map (λ t. t.now) texts.now)) }
{
    for text in texts {
        out.extend_from_slice(text)?;
    }
    Ok(())
}
