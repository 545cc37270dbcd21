//! The first line of some bytes.
ghost use Rattle.std.specs.Prelude.{◌≡◌, ◌<◌, ◌≤◌, ◌+◌, ◌∷◌, length};
ghost use Rattle.memchr.specs.Find.{is_byte2, IsFirstByte};
ghost use Rattle.nquads_reader.specs.Lines.{lines_of};

use memchr::memchr2;

// How many bytes are searched first for the end of a line. Most lines are shorter, and a search of
// so few bytes goes by smaller steps than one of all.
const NEAR: usize = 128;

// The place of the first LF or CR.
#[inline]
fn first_end(bytes: &[u8]) -> Option<usize>
    ensures { IsFirstByte (is_byte2 10 13) bytes.now result }
{
    let near = &bytes[..bytes.len().min(NEAR)];
    match memchr2(b'\n', b'\r', near) {
        Some(end) => Some(end),
        None => memchr2(b'\n', b'\r', bytes),
    }
}

// The first line, without its end, and what follows its end.
pub(crate) fn next_line(bytes: &[u8]) -> (&[u8], &[u8])
    requires { 0 < length bytes.now }
    ensures lines { lines_of bytes.now ≡ result.0.now ∷ lines_of result.1.now }
    ensures within { length result.0.now + length result.1.now ≤ length bytes.now }
    ensures shorter { length result.1.now < length bytes.now }
{
    let Some(end) = first_end(bytes) else {
        return (bytes, &[]);
    };
    if bytes[end] == b'\r' && end + 1 < bytes.len() && bytes[end + 1] == b'\n' {
        (&bytes[..end], &bytes[end + 2..])
    } else {
        (&bytes[..end], &bytes[end + 1..])
    }
}
