//! A base that a plain path is put behind in its place.

ghost use Rattle.std.specs.Prelude.{◌≡◌, ◌<◌, IfOk, OnOk, All, false, true, length, string_bytes};
ghost use Rattle.rdf_terms.specs.Terms.{HasScheme, is_excluded};
ghost use Rattle.iri_resolve.specs.PlainPaths.{IsPlainSegment, IsDotless, IsPlain, IsOpen};
ghost use Rattle.iri_resolve.specs.Resolution.{resolved};

use crate::dots::first_segment;
use crate::parts::split;
use crate::resolution::{has_own_path, resolve};
use rdf_terms::NoMemory;
use std::alloc::Global;
use std::marker::Model;

/// The IRI that references are resolved against, which may become what such a reference stands for.
#[derive(Debug, Drop)]
pub struct Base {
    text: String,
    // Whether a plain path may be put behind its directory.
    takes_paths: bool,
}

impl Model for Base {
    ghost use Rattle.std.specs.Prelude.{◌≡◌, true, string_bytes};
    ghost use Rattle.rdf_terms.specs.Lists.{Text};
    ghost use Rattle.iri_resolve.specs.PlainPaths.{IsOpen};

    ghost Value = { Text };

    ghost view = { λ base. string_bytes base.text };

    ghost invariant = { λ base. base.takes_paths ≡ true → IsOpen (string_bytes base.text) };
}

// Whether the segment, with the `/` before it, where there is one, is a dot segment (RFC 3986, section 3.3).
fn is_dot_segment(segment: &str) -> bool
    ensures { result ≡ false → IsPlainSegment segment.now }
{
    match segment {
        "." | ".." | "/." | "/.." => true,
        _ => false,
    }
}

// Whether a segment of the path is a dot segment.
fn has_dot_segment(path: &str) -> bool
    ensures { result ≡ false → IsDotless path.now }
{
    let mut rest = path;
    while !rest.is_empty() {
        let (segment, after) = first_segment(rest);
        if is_dot_segment(segment) {
            return true;
        }
        rest = after;
    }
    false
}

// Whether the base has no query, no fragment and no dot segment, and its path a `/`.
fn is_open(base: &str) -> bool
    requires { HasScheme base.now }
    ensures { result ≡ true → IsOpen base.now }
{
    let parts = split(base);
    if parts.query.is_some() || parts.fragment.is_some() {
        return false;
    }
    parts.path.as_bytes().contains(&b'/') && !has_dot_segment(parts.path)
}

// Whether the reference is a path with no dot segment, which does not begin with `/`.
fn is_plain(reference: &str) -> bool
    ensures { result ≡ true → IsPlain reference.now }
{
    let parts = split(reference);
    if has_own_path(&parts) || parts.query.is_some() || parts.fragment.is_some() {
        return false;
    }
    !parts.path.is_empty() && !has_dot_segment(parts.path)
}

// Puts a plain path behind the directory of the base.
fn put_behind(base: &mut String, reference: &str) -> Result<(), NoMemory>
    requires is_open { IsOpen (string_bytes base.old) }
    requires plain { IsPlain reference.now }
    ensures is { OnOk result (string_bytes base.new ≡ resolved (string_bytes base.old) reference.now) }
    ensures stays_open { OnOk result (IsOpen (string_bytes base.new)) }
{
    let Some(end) = base.as_str().rfind('/') else {
        unreachable!()
    };
    base.truncate(end + 1);
    base.push_str(reference)?;
    Ok(())
}

impl Base {
    /// The base of this text. It may hold any characters behind its scheme.
    pub fn new(alloc: Global, text: &str) -> Result<Self, NoMemory>
        requires { HasScheme text.now }
        ensures { IfOk result (λ base. base ≡ text.now) }
    {
        let takes_paths = is_open(text);
        let text = String::from_str(alloc, text)?;
        Ok(Base { text, takes_paths })
    }

    pub fn as_str(&self) -> &str
        ensures { result.now ≡ self.now }
    {
        self.text.as_str()
    }

    /// Becomes the reference, resolved against it (RFC 3986, section 5.2). Where the reference is a path without `/` at
    /// its front and without dot segments, and the base has neither query, fragment nor dot segments, this takes time by
    /// the length of the reference and of the last segment alone.
    pub fn turn_to(&mut self, alloc: Global, reference: &str) -> Result<(), NoMemory>
        requires { HasScheme self.old }
        ensures is { OnOk result (self.new ≡ resolved self.old reference.now) }
        ensures scheme { OnOk result (HasScheme self.new) }
        ensures allowed { All (λ c. is_excluded c ≡ false) self.old →
            All (λ c. is_excluded c ≡ false) reference.now →
            OnOk result (All (λ c. is_excluded c ≡ false) self.new) }
    {
        if self.takes_paths && is_plain(reference) {
            self.takes_paths = false;
            put_behind(&mut self.text, reference)?;
            self.takes_paths = true;
            return Ok(());
        }
        let iri = resolve(alloc, self.text.as_str(), reference)?;
        *self = Base::new(alloc, iri.as_str())?;
        Ok(())
    }
}
