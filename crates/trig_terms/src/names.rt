//! The parts of prefixed names.
ghost use Rattle.std.specs.Prelude.{◌≡◌, ◌==◌, ◌&&◌, ◌++◌, not, if◌then◌else◌, [], encode_utf8, string_bytes, IfOk, OnOk};
ghost use Rattle.trig_lexer.specs.declared.kind.Kind.TheVariants.{PnameNs, PnameLn};
ghost use Rattle.trig_lexer.specs.Names.{unescaped};
ghost use Rattle.trig_terms.specs.Leaves.{IsSpelled, IsLeafOf, IsValidLeaf};

use crate::Leaf;
use rdf_terms::NoMemory;
use std::alloc::Global;
use terminals::{SpelledText, first_char};

// Whether the character is a `\` that escapes the next one.
fn escapes_next(c: char, is_escaped: bool) -> bool
    ensures { result ≡ (c == 92 && not is_escaped) }
{
    c == '\\' && !is_escaped
}

// Appends the character, unless it is left out.
fn push_kept(value: &mut String, c: char, is_left_out: bool) -> Result<(), NoMemory>
    ensures { OnOk result (string_bytes value.new ≡ string_bytes value.old ++ (if is_left_out then [] else encode_utf8 c)) }
{
    if !is_left_out {
        value.push(c)?;
    }
    Ok(())
}

// The text without its escapes: each character behind a `\` stands for itself.
fn without_escapes(alloc: Global, text: &str) -> Result<String, NoMemory>
    ensures { IfOk result (λ value. string_bytes value ≡ unescaped text.now) }
{
    let mut value = String::new(alloc);
    let mut escapes = false;
    let mut rest = text;
    while let Some((c, next)) = first_char(rest) {
        escapes = escapes_next(c, escapes);
        push_kept(&mut value, c, escapes)?;
        rest = next;
    }
    Ok(value)
}

// The local part of a name, its escapes undone.
fn local_part<'a>(alloc: Global, text: &'a str) -> Result<SpelledText<'a>, NoMemory>
    ensures { IfOk result (λ local. local ≡ unescaped text.now) }
{
    match text.find('\\') {
        None => Ok(SpelledText::of_text(text)),
        Some(_) => Ok(SpelledText::with_escapes_undone(without_escapes(alloc, text)?)),
    }
}

// The PNAME_NS that the text is (RDF 1.1 TriG, section 4.5).
pub(crate) fn namespace(text: &str) -> Leaf<'_>
    requires { IsSpelled PnameNs text.now }
    ensures { IsLeafOf PnameNs text.now result }
{
    match text.split_once(':') {
        Some((prefix, _)) => Leaf::Namespace(SpelledText::of_text(prefix)),
        None => unreachable!(),
    }
}

// The PNAME_LN that the text is (RDF 1.1 TriG, section 4.5).
pub(crate) fn name(alloc: Global, text: &str) -> Result<Leaf<'_>, NoMemory>
    requires { IsSpelled PnameLn text.now }
    ensures is { IfOk result (IsLeafOf PnameLn text.now) }
    ensures valid { IfOk result IsValidLeaf }
{
    match text.split_once(':') {
        Some((prefix, local)) => Ok(Leaf::Name(
            SpelledText::of_text(prefix),
            local_part(alloc, local)?,
        )),
        None => unreachable!(),
    }
}
