//! The components of a reference.

ghost use Rattle.std.specs.Prelude.{◌≡◌, ◌<◌};
ghost use Rattle.std.specs.Option.{option_copied};
ghost use Rattle.iri_resolve.specs.Components.{before, after, scheme_of, without_scheme, authority_of, path_of, components};
ghost use Rattle.iri_resolve.specs.Parts.{components_of};

use crate::delimiters::{cut, split_before};
use crate::scheme::begins_with_scheme;

/// The five components of an IRI reference (RFC 3986, section 3), each without its delimiters.
#[derive(Clone, Copy, Debug, PartialEq, Eq)]
pub struct Parts<'a> {
    pub scheme: Option<&'a str>,
    pub authority: Option<&'a str>,
    pub path: &'a str,
    pub query: Option<&'a str>,
    pub fragment: Option<&'a str>,
}

fn split_scheme(text: &str) -> (Option<&str>, &str)
    ensures scheme { option_copied result.0 ≡ scheme_of text.now }
    ensures rest { result.1.now ≡ without_scheme text.now }
{
    if !begins_with_scheme(text.as_bytes()) {
        return (None, text);
    }
    match text.split_once(':') {
        Some((scheme, rest)) => (Some(scheme), rest),
        None => (None, text),
    }
}

fn split_authority(text: &str) -> (Option<&str>, &str)
    ensures authority { option_copied result.0 ≡ authority_of text.now }
    ensures path { result.1.now ≡ path_of text.now }
{
    let Some(rest) = text.strip_prefix("//") else {
        return (None, text);
    };
    let (authority, path) = split_before(rest, '/');
    (Some(authority), path)
}

#[tactic(auto, unfolding(crate::specs::Components::components))]
/// The five components of a text, cut as RFC 3986 does it (sections 3 and 4.1); each is a part of the text.
pub fn split(text: &str) -> Parts<'_>
    ensures { components_of result ≡ components text.now }
{
    let (scheme, rest) = split_scheme(text);
    let (rest, fragment) = cut(rest, '#');
    let (rest, query) = cut(rest, '?');
    let (authority, path) = split_authority(rest);
    Parts {
        scheme,
        authority,
        path,
        query,
        fragment,
    }
}
