//! Dot segments taken out of a path.

ghost use Rattle.std.specs.Prelude.{◌≡◌, ◌<◌, ◌==◌, if◌then◌else◌, IfOk, codes, length, take, drop, string_bytes};
ghost use Rattle.iri_resolve.specs.DotSegments.{Buffers, first_segment_len, without_slash, without_last_segment, turn, without_dot_segments};

use crate::delimiters::place_of;
use rdf_terms::NoMemory;
use std::alloc::Global;

// What follows the `/` at the front, where one stands there.
fn after_slash(path: &str) -> &str
    ensures { result.now ≡ without_slash path.now }
{
    if path.starts_with('/') {
        &path[1..]
    } else {
        path
    }
}

// The first segment, with the `/` before it, where there is one, and what follows it.
pub(crate) fn first_segment(path: &str) -> (&str, &str)
    ensures segment { result.0.now ≡ take (first_segment_len path.now) path.now }
    ensures rest { result.1.now ≡ drop (first_segment_len path.now) path.now }
{
    let name = after_slash(path);
    path.split_at(path.len() - name.len() + place_of(name, '/'))
}

// Drops the last segment and the `/` before it, where there is one.
fn drop_last_segment(path: &mut String)
    ensures { string_bytes path.new ≡ without_last_segment (string_bytes path.old) }
{
    match path.as_str().rfind('/') {
        Some(end) => path.truncate(end),
        None => path.clear(),
    }
}

// What is left of the input behind a `.` or `..` that a `/` preceded: that `/` stays.
fn or_slash(after: &str) -> &str
    ensures { result.now ≡ (if length after.now == 0 then codes "/" else after.now) }
{
    if after.is_empty() { "/" } else { after }
}

// Takes the first segment off the input, and answers what is left of it.
fn take_segment<'a>(input: &'a str, output: &mut String) -> Result<&'a str, NoMemory>
    requires { 0 < length input.now }
    ensures shorter { IfOk result (λ rest. length rest.now < length input.now) }
    ensures turn { IfOk result (λ rest. record { input = rest.now; output = string_bytes output.new } ≡ turn (record { input = input.now; output = string_bytes output.old })) }
{
    let (segment, after) = first_segment(input);
    match segment {
        "." | ".." => Ok(after_slash(after)),
        "/." => Ok(or_slash(after)),
        "/.." => {
            drop_last_segment(output);
            Ok(or_slash(after))
        }
        _ => {
            output.push_str(segment)?;
            Ok(after)
        }
    }
}

// The path without its dot segments (RFC 3986, section 5.2.4).
pub(crate) fn remove_dot_segments(alloc: Global, path: &str) -> Result<String, NoMemory>
    ensures { IfOk result (λ out. string_bytes out ≡ without_dot_segments path.now) }
{
    let mut output = String::new(alloc);
    let mut input = path;
    while !input.is_empty() {
        input = take_segment(input, &mut output)?;
    }
    Ok(output)
}
