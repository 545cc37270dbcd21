//! The escapes of a string.

ghost use Rattle.std.specs.Prelude.{◌≡◌, ◌++◌, ◌<◌, OnOk, IsTrue};
ghost use Rattle.std.specs.Io.{StartsWith};
ghost use Rattle.std.specs.List.{flat_map};
ghost use Rattle.rdf_terms.specs.CanonicalForm.{escaped, hex_digit};
ghost use Rattle.canonical_writer.specs.Escapes.{is_escaped};

use rdf_terms::NoMemory;

// Appends the text of a string with its escapes. What stands as it is between two escapes is
// copied at once.
pub(crate) fn push_escaped(out: &mut Vec<u8>, text: &[u8]) -> Result<(), NoMemory>
    ensures ok { OnOk result (out.new.items ≡ out.old.items ++ flat_map escaped text.now) }
    ensures front { StartsWith out.new.items out.old.items }
{
    let mut start = 0;
    for (i, byte) in text.iter().enumerate() {
        if needs_escape(*byte) {
            out.extend_from_slice(&text[start..i])?;
            push_escape(out, *byte)?;
            start = i + 1;
        }
    }
    out.extend_from_slice(&text[start..])?;
    Ok(())
}

fn needs_escape(byte: u8) -> bool
    ensures { result ≡ is_escaped byte }
{
    byte < 0x20 || byte == b'"' || byte == b'\\' || byte == 0x7F
}

#[tactic(auto, unfolding(rdf_terms::specs::CanonicalForm::escaped))]
fn push_escape(out: &mut Vec<u8>, byte: u8) -> Result<(), NoMemory>
    requires { IsTrue (is_escaped byte) }
    ensures ok { OnOk result (out.new.items ≡ out.old.items ++ escaped byte) }
    ensures front { StartsWith out.new.items out.old.items }
{
    match byte {
        0x08 => out.extend_from_slice(b"\\b")?,
        b'\t' => out.extend_from_slice(b"\\t")?,
        b'\n' => out.extend_from_slice(b"\\n")?,
        0x0C => out.extend_from_slice(b"\\f")?,
        b'\r' => out.extend_from_slice(b"\\r")?,
        b'"' => out.extend_from_slice(b"\\\"")?,
        b'\\' => out.extend_from_slice(b"\\\\")?,
        _ => {
            out.extend_from_slice(b"\\u00")?;
            out.extend_from_slice(&[digit(byte / 16), digit(byte % 16)])?;
        }
    }
    Ok(())
}

// The hexadecimal digit in upper case.
fn digit(value: u8) -> u8
    requires { value < 16 }
    ensures { result ≡ hex_digit value }
{
    if value < 10 {
        b'0' + value
    } else {
        b'A' + (value - 10)
    }
}
