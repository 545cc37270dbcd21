//! A file that is read in pieces.
ghost use Rattle.std.specs.Prelude.{◌≡◌, ℕ, ◌+◌, ◌≤◌, List, [], ◌++◌, length, vec_len, IfOk, IfErr, OnOk};
ghost use Rattle.nquads_reader.specs.Pieces.{StandsFor};
ghost use Rattle.rdfc_cli.specs.Answers.{seen};
ghost use Rattle.rdfc_cli.specs.FileFaults.{IsFed, IsFileFault};
ghost use Rattle.rdfc_cli.specs.Words.{Syntax};
ghost use Rattle.rdfc_cli.specs.declared.files.FileFault.TheVariants.{Failed as Fault, NoMemory as Memory};

use crate::status::Cause;
use nquads_reader::{LineReader, MOST_BYTES};
use outside::{Failed, Shelf};
use rdf_terms::NoMemory;
use std::alloc::Global;

/// The most bytes that a file may have.
pub const FILE_LIMIT: usize = 268_435_456;

// How many bytes are asked for at once.
const PIECE_LEN: usize = 65_536;

// Why a file gave no dataset.
#[derive(Clone, Copy, Debug, PartialEq, Eq)]
pub(crate) enum FileFault {
    Failed,
    Refused(Cause),
    NoMemory,
}

impl From<Failed> for FileFault {
    ghost from_gives = { λ _ e. e ≡ Fault };

    fn from(_: Failed) -> Self {
        FileFault::Failed
    }
}

impl From<NoMemory> for FileFault {
    ghost from_gives = { λ _ e. e ≡ Memory };

    fn from(_: NoMemory) -> Self {
        FileFault::NoMemory
    }
}

fn zeros(alloc: Global, len: usize) -> Result<Vec<u8>, NoMemory>
    ensures { IfOk result (λ v. vec_len v ≡ len) }
{
    Ok(vec![in alloc; 0u8; len]?)
}

// What takes the bytes of a file, one piece after the other.
pub(crate) trait Intake {
    /// Whether it took exactly these bytes.
    ghost holds: { Self → List ℕ → Type 0 };

    fn take(&mut self, piece: &[u8]) -> Result<(), NoMemory>
        requires { (bytes : List ℕ) × holds self.old bytes × (length bytes + length piece.now ≤ MOST_BYTES) }
        ensures { (bytes : List ℕ) → holds self.old bytes → OnOk result (holds self.new (bytes ++ piece.now)) };
}

impl Intake for LineReader {
    ghost holds = { StandsFor };

    fn take(&mut self, piece: &[u8]) -> Result<(), NoMemory> {
        self.feed(piece)
    }
}

impl Intake for Vec<u8> {
    ghost holds = { λ v bytes. v.items ≡ bytes };

    fn take(&mut self, piece: &[u8]) -> Result<(), NoMemory> {
        self.extend_from_slice(piece)?;
        Ok(())
    }
}

// What is left of the intake when it took a whole file. The first call that fails ends the reading, and so does the
// first byte past the limit; what was taken is given up then.
pub(crate) fn feed_file<S: Shelf, I: Intake + Drop>(
    alloc: Global,
    intake: I,
    shelf: &mut S,
    name: &str,
) -> Result<I, FileFault>
    requires { I.holds intake [] }
    ensures fed { IfOk result (IsFed I.holds (S.told shelf.old name.now)) }
    ensures fault { (syntax : Syntax) → IfErr result (IsFileFault (seen syntax S.told S.faults shelf.old shelf.new name.now)) }
    ensures told { (other : List ℕ) → S.told shelf.new other ≡ S.told shelf.old other }
    ensures never_fell { (other : List ℕ) → S.faults shelf.old other ≤ S.faults shelf.new other }
{
    let mut intake = intake;
    let mut piece = zeros(alloc, PIECE_LEN)?;
    let mut total = 0;
    shelf.start(name)?;
    while total <= FILE_LIMIT {
        let count = shelf.next(name, &mut piece)?;
        if count == 0 {
            return Ok(intake);
        }
        intake.take(&piece[..count])?;
        total += count;
    }
    Err(FileFault::Refused(Cause::TooLong))
}
