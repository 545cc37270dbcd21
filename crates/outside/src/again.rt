//! Calls of std that are made again where a signal interrupted them, as std's own loops do.

ghost use Rattle.std.specs.Prelude.{◌≤◌, length, IfOk};

use std::io::{self, Error, ErrorKind, Read, Write};

// The answer of a call that was interrupted each time, which is as good as never.
fn given_up() -> Error {
    Error::from(ErrorKind::Interrupted)
}

// Reads once.
pub(crate) fn read<R: Read>(reader: &mut R, buf: &mut [u8]) -> io::Result<usize>
    ensures { IfOk result (λ n. n ≤ length buf.new) }
{
    for _ in 0..u64::MAX {
        match reader.read(buf) {
            Err(error) if error.kind() == ErrorKind::Interrupted => {}
            ended => return ended,
        }
    }
    Err(given_up())
}

// Writes once.
pub(crate) fn write<W: Write>(writer: &mut W, bytes: &[u8]) -> io::Result<usize>
    ensures { IfOk result (λ n. n ≤ length bytes.now) }
{
    for _ in 0..u64::MAX {
        match writer.write(bytes) {
            Err(error) if error.kind() == ErrorKind::Interrupted => {}
            ended => return ended,
        }
    }
    Err(given_up())
}

// Flushes.
pub(crate) fn flush<W: Write>(writer: &mut W) -> io::Result<()> {
    for _ in 0..u64::MAX {
        match writer.flush() {
            Err(error) if error.kind() == ErrorKind::Interrupted => {}
            ended => return ended,
        }
    }
    Err(given_up())
}
