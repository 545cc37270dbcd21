//! A reference resolved against a base.

ghost use Rattle.std.specs.Prelude.{◌≡◌, ◌++◌, ◌||◌, ◌==◌, if◌then◌else◌, length, IfOk, OnOk, All, false, is_some, string_bytes};
ghost use Rattle.std.specs.Option.{option_copied, option_or};
ghost use Rattle.rdf_terms.specs.Terms.{HasScheme, is_excluded};
ghost use Rattle.iri_resolve.specs.Components.{components};
ghost use Rattle.iri_resolve.specs.Parts.{components_of};
ghost use Rattle.iri_resolve.specs.Resolution.{begins_with_slash, up_to_last_slash, merged, behind, before_colon, recomposed, target, resolved};

use crate::dots::remove_dot_segments;
use crate::parts::{Parts, split};
use rdf_terms::{NoMemory, TermText};
use std::alloc::Global;

// The path up to and with its last `/`, or nothing where it has none.
fn directory(path: &str) -> &str
    ensures { result.now ≡ up_to_last_slash path.now }
{
    match path.rfind('/') {
        Some(end) => &path[..end + 1],
        None => "",
    }
}

// The reference's path below the directory of the base (RFC 3986, section 5.2.3).
fn merge(alloc: Global, base: &Parts<'_>, path: &str) -> Result<String, NoMemory>
    ensures { IfOk result (λ text. string_bytes text ≡ merged (components_of base.now) path.now) }
{
    let under = if base.authority.is_some() && base.path.is_empty() {
        "/"
    } else {
        directory(base.path)
    };
    let mut merged = String::from_str(alloc, under)?;
    merged.push_str(path)?;
    Ok(merged)
}

// Whether nothing of the base's path goes into the target's.
pub(crate) fn has_own_path(reference: &Parts<'_>) -> bool
    ensures { result ≡ (is_some reference.now.scheme || (is_some reference.now.authority || begins_with_slash reference.now.path.now)) }
{
    reference.scheme.is_some() || reference.authority.is_some() || reference.path.starts_with('/')
}

// The path of the target (RFC 3986, section 5.2.2).
fn target_path(alloc: Global, base: &Parts<'_>, reference: &Parts<'_>) -> Result<String, NoMemory>
    ensures { IfOk result (λ path. string_bytes path ≡ (target (components_of base.now) (components_of reference.now)).path) }
{
    if has_own_path(reference) {
        remove_dot_segments(alloc, reference.path)
    } else if reference.path.is_empty() {
        Ok(String::from_str(alloc, base.path)?)
    } else {
        let merged = merge(alloc, base, reference.path)?;
        remove_dot_segments(alloc, merged.as_str())
    }
}

// The query of a target under the base's authority: a path of the reference's own has its query.
fn query_below<'a>(base: &Parts<'a>, reference: &Parts<'a>) -> Option<&'a str>
    ensures { option_copied result ≡ (if length reference.now.path.now == 0
        then option_copied (option_or reference.now.query base.now.query)
        else option_copied reference.now.query) }
{
    if !reference.path.is_empty() {
        return reference.query;
    }
    reference.query.or(base.query)
}

// The components of the target, with its path (RFC 3986, section 5.2.2).
fn target<'a>(base: &Parts<'a>, reference: &Parts<'a>, path: &'a str) -> Parts<'a>
    requires { path.now ≡ (target (components_of base.now) (components_of reference.now)).path }
    ensures { components_of result ≡ target (components_of base.now) (components_of reference.now) }
{
    if reference.scheme.is_some() {
        Parts { path, ..*reference }
    } else if reference.authority.is_some() {
        Parts {
            scheme: base.scheme,
            path,
            ..*reference
        }
    } else {
        Parts {
            scheme: base.scheme,
            authority: base.authority,
            path,
            query: query_below(base, reference),
            ..*reference
        }
    }
}

// The scheme and its `:`, where there is one.
fn scheme_text(alloc: Global, scheme: Option<&str>) -> Result<String, NoMemory>
    ensures { IfOk result (λ text. string_bytes text ≡ before_colon (option_copied scheme.entry)) }
{
    let mut text = String::new(alloc);
    if let Some(scheme) = scheme {
        text.push_str(scheme)?;
        text.push_str(":")?;
    }
    Ok(text)
}

// Appends a component behind its delimiter, where there is one.
fn push_behind(text: &mut String, delimiter: &str, part: Option<&str>) -> Result<(), NoMemory>
    ensures { OnOk result (string_bytes text.new ≡ string_bytes text.old ++ behind delimiter.now (option_copied part.entry)) }
{
    if let Some(part) = part {
        text.push_str(delimiter)?;
        text.push_str(part)?;
    }
    Ok(())
}

#[tactic(auto, unfolding(crate::specs::Resolution::recomposed))]
// The components as one text (RFC 3986, section 5.3).
fn compose(alloc: Global, parts: &Parts<'_>) -> Result<String, NoMemory>
    ensures { IfOk result (λ text. string_bytes text ≡ recomposed (components_of parts.now)) }
{
    let mut text = scheme_text(alloc, parts.scheme)?;
    push_behind(&mut text, "//", parts.authority)?;
    text.push_str(parts.path)?;
    push_behind(&mut text, "?", parts.query)?;
    push_behind(&mut text, "#", parts.fragment)?;
    Ok(text)
}

/// The reference, resolved against the base (RFC 3986, section 5.2). Both may hold any characters.
pub fn resolve(alloc: Global, base: &str, reference: &str) -> Result<TermText, NoMemory>
    requires { HasScheme base.now }
    ensures is { IfOk result (λ iri. iri ≡ resolved base.now reference.now) }
    ensures scheme { IfOk result HasScheme }

    // Each character of the answer is one of the base or of the reference, or a delimiter.
    ensures allowed { All (λ c. is_excluded c ≡ false) base.now →
        All (λ c. is_excluded c ≡ false) reference.now →
        IfOk result (All (λ c. is_excluded c ≡ false)) }
{
    let base = split(base);
    let reference = split(reference);
    let path = target_path(alloc, &base, &reference)?;
    let target = target(&base, &reference, path.as_str());
    let text = compose(alloc, &target)?;
    TermText::copy(alloc, text.as_str())
}
