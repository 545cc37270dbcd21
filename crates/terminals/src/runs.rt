//! Characters as they are spelled between two marks.

ghost use Rattle.std.specs.Prelude.{◌≡◌, ◌≤◌, ℕ, List, false, drop, length, string_bytes, IfOk, OnOk, OnErr};
ghost use Rattle.std.specs.List.{prefix_len};
ghost use Rattle.terminals.specs.Spellings.{stands_for_itself, BeginsWithRun, TextSpells, IsFrontOf};

use crate::escapes::escape;
use crate::{Body, Quote, SpelledText, front_len};
use char_tables::iri_len;
use rdf_terms::NoMemory;
use std::alloc::Global;

/// Characters as they are spelled between two marks.
#[derive(Clone, Copy, Debug)]
pub struct Spelling<'a> {
    /// The characters with their escapes.
    pub text: &'a str,
    /// Between which marks they stand.
    pub body: Body,
    /// Whether an escape is among them. Where none is, the text is its own value.
    pub has_escapes: bool,
}

// How many bytes at the front stand for themselves in an IRI.
#[inline]
fn plain_iri_len(text: &str) -> usize
    ensures is { result ≡ prefix_len (stands_for_itself Body.Iri) text.now }
    ensures within { result ≤ length text.now }
{
    iri_len(text.as_bytes())
}

// How many bytes at the front stand for themselves in a string between two quotes.
#[inline]
fn plain_short_len(text: &str, quote: Quote) -> usize
    ensures is { result ≡ prefix_len (stands_for_itself (Body.Short quote)) text.now }
    ensures within { result ≤ length text.now }
{
    front_len!(text, |byte| quote.short_takes(**byte))
}

// How many bytes at the front stand for themselves in a string between six quotes.
#[inline]
fn plain_long_len(text: &str, quote: Quote) -> usize
    ensures is { result ≡ prefix_len (stands_for_itself (Body.Long quote)) text.now }
    ensures within { result ≤ length text.now }
{
    front_len!(text, |byte| quote.long_takes(**byte))
}

// How many bytes at the front stand for themselves. Which test they pass is chosen once for all.
#[inline]
fn plain_len(text: &str, body: Body) -> usize
    ensures is { result ≡ prefix_len (stands_for_itself body) text.now }
    ensures within { result ≤ length text.now }
{
    match body {
        Body::Iri => plain_iri_len(text),
        Body::Short(quote) => plain_short_len(text, quote),
        Body::Long(quote) => plain_long_len(text, quote),
    }
}

// What follows the characters at the front that stand for themselves.
#[inline]
fn after_plain(text: &str, body: Body) -> &str
    ensures { result.now ≡ drop (prefix_len (stands_for_itself body) text.now) text.now }
{
    &text[plain_len(text, body)..]
}

/// The longest run of spelled characters at the front, and what follows it.
#[inline]
pub fn run(text: &str, body: Body) -> (Spelling<'_>, &str)
    ensures { BeginsWithRun body text.now result.0 result.1.now }
{
    let mut rest = after_plain(text, body);
    let mut has_escapes = false;
    while let Some((_, after)) = escape(rest, body) {
        has_escapes = true;
        rest = after_plain(after, body);
    }
    let spelling = Spelling {
        text: &text[..text.len() - rest.len()],
        body,
        has_escapes,
    };
    (spelling, rest)
}

impl<'a> Spelling<'a> {
    /// The value.
    #[inline(always)]
    pub fn value(self, alloc: Global) -> Result<SpelledText<'a>, NoMemory>
        ensures { (value : List ℕ) → TextSpells self.entry.body self.entry.text.now value → (self.entry.has_escapes ≡ false → self.entry.text.now ≡ value) → IfOk result (λ text. text ≡ value) }
    {
        if !self.has_escapes {
            return Ok(SpelledText::of_text(self.text));
        }
        let mut value = String::new(alloc);
        self.unescape(&mut value)?;
        Ok(SpelledText::with_escapes_undone(value))
    }

    /// Writes the value into `into`, in place of what it holds. After `NoMemory` it holds a front of
    /// the value.
    pub fn unescape(&self, into: &mut String) -> Result<(), NoMemory>
        ensures value { (value : List ℕ) → TextSpells self.now.body self.now.text.now value → OnOk result (string_bytes into.new ≡ value) }
        ensures front { (value : List ℕ) → TextSpells self.now.body self.now.text.now value → OnErr result (IsFrontOf (string_bytes into.new) value) }
    {
        into.clear();
        let mut rest = self.text;
        loop {
            let stop = after_plain(rest, self.body);
            into.push_str(&rest[..rest.len() - stop.len()])?;
            match escape(stop, self.body) {
                Some((c, after)) => {
                    into.push(c)?;
                    rest = after;
                }
                None => return Ok(()),
            }
        }
    }
}
