//! A further piece of a document.
ghost use Rattle.std.specs.Prelude.{◌≡◌, ◌≢◌, ℕ, ◌≤◌, ◌+◌, ◌++◌, length, IfErr, OnOk};
ghost use Rattle.rdf_terms.specs.Lists.{Text};
ghost use Rattle.nquads_reader.specs.Reading.{fault_at};
ghost use Rattle.nquads_reader.specs.Pieces.{ends_with_cr, AreTaken, AreStopped};
ghost use Rattle.nquads_reader.specs.Feeding.{HasRoom};
ghost use Rattle.nquads_reader.specs.declared.fault.LineFault.TheVariants.{NoMemory as Memory};

use crate::MOST_BYTES;
use crate::cut::{behind_line_end, split_at_last_end};
use crate::fault::LineFault;
use crate::read_lines::read_ended;
use rdf_terms::Draft;
use std::alloc::Global;

// Adds what the lines state that the piece ends, and keeps the bytes behind them for the next one.
pub(crate) fn take_piece(
    alloc: Global,
    draft: &mut Draft,
    lines: &mut u64,
    tail: &mut Vec<u8>,
    after_cr: bool,
    piece: &[u8],
) -> Result<(), LineFault>
    requires { HasRoom MOST_BYTES draft.old lines.old (length tail.old.items + length piece.now) }
    ensures ok { (bytes : Text) → AreTaken bytes draft.old lines.old tail.old.items → after_cr ≡ ends_with_cr bytes → OnOk result (AreTaken (bytes ++ piece.now) draft.new lines.new tail.new.items) }
    ensures room { OnOk result ((limit : ℕ) → HasRoom limit draft.old lines.old (length tail.old.items + length piece.now) → HasRoom limit draft.new lines.new (length tail.new.items)) }
    ensures err { (bytes : Text) → AreTaken bytes draft.old lines.old tail.old.items → after_cr ≡ ends_with_cr bytes → IfErr result (λ fault. fault ≢ Memory → AreStopped (bytes ++ piece.now) draft.new lines.new (fault_at (lines.new + 1) fault)) }
    ensures few { lines.new ≤ lines.old + (length tail.old.items + length piece.now) }
{
    let bytes = behind_line_end(after_cr, piece);
    let (ended, unended) = split_at_last_end(bytes);
    read_ended(alloc, draft, lines, tail, ended)?;
    tail.extend_from_slice(unended)?;
    Ok(())
}
