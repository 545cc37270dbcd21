//! A line that is gathered before it is put.
ghost use Rattle.std.specs.Prelude.{◌≡◌, [], Some};

use arrayvec::ArrayVec;
use outside::{Failed, Sink};

// What a pipe takes in one piece, whoever else writes to it (POSIX.1-2017, `write`; PIPE_BUF of Linux).
const LINE_ROOM: usize = 4_096;

// The bytes of a line so far, in the value itself. A call fails whose bytes do not all fit.
#[derive(Drop)]
pub(crate) struct Line {
    bytes: ArrayVec<u8, LINE_ROOM>,
    faults: u64,
}

impl Line {
    pub(crate) fn new() -> Self
        ensures { result.bytes.items ≡ [] }
    {
        Line {
            bytes: ArrayVec::new(),
            faults: 0,
        }
    }

    pub(crate) fn as_bytes(&self) -> &[u8]
        ensures { result.now ≡ self.now.bytes.items }
    {
        self.bytes.as_slice()
    }
}

impl Sink for Line {
    ghost taken = { λ line. Some line.bytes.items };

    ghost faults = { λ line. line.faults };

    fn put(&mut self, bytes: &[u8]) -> Result<usize, Failed> {
        if self.bytes.try_extend_from_slice(bytes).is_err() {
            self.faults = self.faults.saturating_add(1);
            return Err(Failed);
        }
        Ok(bytes.len())
    }
}
