//! The next lines, as far as they state so many quads.
ghost use Rattle.std.specs.Prelude.{◌≡◌, ◌<◌, ◌≤◌, length, IfErr, IfSome, IfNone, OnOk, OnErr};
ghost use Rattle.nquads_reader.specs.Reading.{IsFaultOf, Appends, IsBlock, IsFaultNext};

use crate::MOST_BYTES;
use crate::fault::LineFault;
use crate::line::read_line;
use crate::lines::next_line;
use crate::quad::StatedQuad;
use std::alloc::Global;

// The look-ups of the terms of so many quads are made side by side, so that the memory that one
// waits for comes while the others go on. What is held of these quads still fits the near caches.
const QUADS_AT_ONCE: usize = 64;

// How many lines were read, what stands behind them, and the fault of the line there, if it has one.
#[derive(Drop)]
pub(crate) struct Block<'a> {
    pub(crate) lines: u64,
    pub(crate) rest: &'a [u8],
    pub(crate) fault: Option<LineFault>,
}

// Puts the quad that the line states, if any, behind the others.
#[inline(always)]
fn push_line<'a>(
    alloc: Global,
    line: &'a [u8],
    quads: &mut Vec<StatedQuad<'a>>,
) -> Result<(), LineFault>
    ensures ok { OnOk result (Appends line.now quads.old.items quads.new.items) }
    ensures err { IfErr result (IsFaultOf line.now) }
    ensures unchanged { OnErr result (quads.new.items ≡ quads.old.items) }
{
    if let Some(quad) = read_line(alloc, line)? {
        quads.push(quad)?;
    }
    Ok(())
}

// Reads lines until they state so many quads, to a line with a fault, or to the end. The quads stand
// in place of what was there.
pub(crate) fn read_block<'a>(
    alloc: Global,
    bytes: &'a [u8],
    quads: &mut Vec<StatedQuad<'a>>,
) -> Block<'a>
    requires some { 0 < length bytes.now }
    requires few { length bytes.now ≤ MOST_BYTES }
    ensures block { IsBlock bytes.now quads.new.items result.lines result.rest.now }
    ensures fault { IfSome result.fault (IsFaultNext result.rest.now) }
    ensures shorter { IfNone result.fault (length result.rest.now < length bytes.now) }
{
    quads.clear();
    let mut rest = bytes;
    let mut lines = 0u64;
    while !rest.is_empty() && quads.len() < QUADS_AT_ONCE {
        let (line, after) = next_line(rest);
        match push_line(alloc, line, quads) {
            Ok(()) => {}
            Err(fault) => {
                return Block {
                    lines,
                    rest,
                    fault: Some(fault),
                };
            }
        }
        rest = after;
        lines += 1;
    }
    Block {
        lines,
        rest,
        fault: None,
    }
}
