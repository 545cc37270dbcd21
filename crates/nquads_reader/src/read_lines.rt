//! Lines go into the draft, one block after the other.
ghost use Rattle.std.specs.Prelude.{◌≡◌, ◌≢◌, ℕ, ◌<◌, ◌≤◌, ◌+◌, ◌++◌, [], false, length, All, IfErr, OnOk};
ghost use Rattle.rdf_terms.specs.Document.{statements};
ghost use Rattle.nquads_reader.specs.Lines.{lines_of};
ghost use Rattle.nquads_reader.specs.Pieces.{is_line_end};
ghost use Rattle.nquads_reader.specs.Feeding.{ended_lines, tail_behind, TakesLines, StopsAt, HasRoom};
ghost use Rattle.nquads_reader.specs.declared.fault.LineFault.TheVariants.{NoMemory as Memory};

use crate::MOST_BYTES;
use crate::block::read_block;
use crate::fault::LineFault;
use crate::lines::next_line;
use crate::number::take_quads;
use rdf_terms::Draft;
use std::alloc::Global;

// Adds what the lines state, in their order, and counts them, up to the first one with a fault.
pub(crate) fn read_lines(
    alloc: Global,
    draft: &mut Draft,
    lines: &mut u64,
    bytes: &[u8],
) -> Result<(), LineFault>
    requires { HasRoom MOST_BYTES draft.old lines.old (length bytes.now) }
    ensures ok { OnOk result (TakesLines (lines_of bytes.now) draft.old draft.new lines.old lines.new) }
    ensures room { OnOk result ((limit behind : ℕ) → HasRoom limit draft.old lines.old (length bytes.now + behind) → HasRoom limit draft.new lines.new behind) }
    ensures err { IfErr result (λ fault. fault ≢ Memory → StopsAt (lines_of bytes.now) fault draft.old draft.new lines.old lines.new) }
    ensures few { lines.new ≤ lines.old + length bytes.now }
{
    let mut quads = Vec::new(alloc);
    let mut rest = bytes;
    while !rest.is_empty() {
        let block = read_block(alloc, rest, &mut quads);
        take_quads(alloc, draft, &quads)?;
        *lines += block.lines;
        rest = block.rest;
        if let Some(fault) = block.fault {
            return Err(fault);
        }
    }
    Ok(())
}

// The same for bytes that go on with a line that was begun.
fn read_begun(
    alloc: Global,
    draft: &mut Draft,
    lines: &mut u64,
    tail: &mut Vec<u8>,
    bytes: &[u8],
) -> Result<(), LineFault>
    requires some { 0 < length bytes.now }
    requires room { HasRoom MOST_BYTES draft.old lines.old (length tail.old.items + length bytes.now) }
    ensures ok { 0 < length tail.old.items → All (λ c. is_line_end c ≡ false) tail.old.items → OnOk result (TakesLines (lines_of (tail.old.items ++ bytes.now)) draft.old draft.new lines.old lines.new) }
    ensures tail { OnOk result (tail.new.items ≡ []) }
    ensures room { OnOk result ((limit behind : ℕ) → HasRoom limit draft.old lines.old (length tail.old.items + length bytes.now + behind) → HasRoom limit draft.new lines.new (length tail.new.items + behind)) }
    ensures err { 0 < length tail.old.items → All (λ c. is_line_end c ≡ false) tail.old.items → IfErr result (λ fault. fault ≢ Memory → StopsAt (lines_of (tail.old.items ++ bytes.now)) fault draft.old draft.new lines.old lines.new) }
    ensures few { lines.new ≤ lines.old + (length tail.old.items + length bytes.now) }
{
    let (line, rest) = next_line(bytes);
    tail.extend_from_slice(line)?;
    read_lines(alloc, draft, lines, tail)?;
    tail.clear();
    read_lines(alloc, draft, lines, rest)
}

// Adds what the lines state that these bytes end. They end in a line end, if there are any, and go
// on with the line that was begun.
pub(crate) fn read_ended(
    alloc: Global,
    draft: &mut Draft,
    lines: &mut u64,
    tail: &mut Vec<u8>,
    bytes: &[u8],
) -> Result<(), LineFault>
    requires { HasRoom MOST_BYTES draft.old lines.old (length tail.old.items + length bytes.now) }
    ensures ok { All (λ c. is_line_end c ≡ false) tail.old.items → OnOk result (TakesLines (ended_lines tail.old.items bytes.now) draft.old draft.new lines.old lines.new) }
    ensures tail { OnOk result (tail.new.items ≡ tail_behind tail.old.items bytes.now) }
    ensures room { OnOk result ((limit behind : ℕ) → HasRoom limit draft.old lines.old (length tail.old.items + length bytes.now + behind) → HasRoom limit draft.new lines.new (length tail.new.items + behind)) }
    ensures err { All (λ c. is_line_end c ≡ false) tail.old.items → IfErr result (λ fault. fault ≢ Memory → StopsAt (ended_lines tail.old.items bytes.now) fault draft.old draft.new lines.old lines.new) }
    ensures few { lines.new ≤ lines.old + (length tail.old.items + length bytes.now) }
{
    if bytes.is_empty() {
        return Ok(());
    }
    if tail.is_empty() {
        return read_lines(alloc, draft, lines, bytes);
    }
    read_begun(alloc, draft, lines, tail, bytes)
}
