//! Lines, by which faults are told.
ghost use Rattle.std.specs.Prelude.{◌≡◌, ◌≤◌, suc, if◌then◌else◌};
ghost use Rattle.trig_reader.specs.Lines.{line_at, line_ends, ends_line};

// How many lines the byte ends, where the one before it was a CR or not.
fn lines_ended(byte: u8, after_cr: bool) -> u64
    ensures ended { result ≡ (if ends_line after_cr byte then 1 else 0) }
    ensures one { result ≤ 1 }
{
    if byte == b'\r' || (byte == b'\n' && !after_cr) {
        1
    } else {
        0
    }
}

// The line that is begun behind the bytes.
fn line_behind(front: &[u8]) -> u64
    ensures { result ≡ suc (line_ends front.now) }
{
    let mut line = 1;
    let mut after_cr = false;
    for byte in front {
        line += lines_ended(*byte, after_cr);
        after_cr = *byte == b'\r';
    }
    line
}

// The line of what begins at the place, counted from 1.
pub(crate) fn line_at(bytes: &[u8], place: usize) -> u64
    ensures { result ≡ line_at bytes.now place }
{
    line_behind(&bytes[..place.min(bytes.len())])
}
