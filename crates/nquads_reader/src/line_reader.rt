//! A document that is read while its bytes come.
ghost use Rattle.std.specs.Prelude.{◌≡◌, ◌≤◌, ◌+◌, ◌++◌, ◌↔◌, [], Some, None, length, IsTrue, IfOk, IfErr, OnOk, OnErr};
ghost use Rattle.rdf_terms.specs.Lists.{Text};
ghost use Rattle.rdf_terms.specs.Document.{statements, IsDocument};
ghost use Rattle.nquads_reader.specs.Document.{IsNQuads, IsCauseOf};
ghost use Rattle.nquads_reader.specs.Pieces.{StandsFor};
ghost use Rattle.nquads_reader.specs.declared.fault.ReadFault.TheVariants.{NoMemory as Memory};

use crate::cut::ends_in_cr;
use crate::read_lines::read_lines;
use crate::take_piece::take_piece;
use crate::{MAX_QUADS, MOST_BYTES, ReadFault};
use rdf_terms::{Draft, NoMemory, Parsed};
use std::alloc::Global;
use std::hash::RandomState;
use std::marker::Model;

/// Reads a document (RDF 1.1 N-Quads, sections 4 and 5) in pieces, however they are cut.
///
/// It keeps what the lines state that were ended so far, the bytes of the line that was not, and the
/// first refusal; the other bytes are not kept. After want of memory it answers nothing else.
#[derive(Drop)]
pub struct LineReader {
    draft: Draft,
    tail: Vec<u8>,
    after_cr: bool,
    lines: u64,
    fault: Option<ReadFault>,
    fed: u64,
}

impl Model for LineReader {
    ghost use Rattle.std.specs.Prelude.{◌≡◌, ◌≤◌, None, length};
    ghost use Rattle.nquads_reader.specs.Pieces.{Reader};
    ghost use Rattle.nquads_reader.specs.Feeding.{HasRoom};
    ghost use Rattle.nquads_reader.specs.declared.TheConstants.{MOST_BYTES};

    ghost Value = { Reader };

    ghost view = { λ r. record { draft = r.draft; tail = r.tail.items; after_cr = r.after_cr; lines = r.lines; fault = r.fault; fed = r.fed } };

    ghost invariant = { λ r. r.fault ≡ None → (r.fed ≤ MOST_BYTES) × HasRoom r.fed r.draft r.lines (length r.tail.items) };
}

impl LineReader {
    fn of_draft(alloc: Global, draft: Draft) -> Self
        requires { draft ≡ record { terms = []; quads = []; labels = [] } }
        ensures { StandsFor result [] }
    {
        LineReader {
            draft,
            tail: Vec::new(alloc),
            after_cr: false,
            lines: 0,
            fault: None,
            fed: 0,
        }
    }

    /// A reader that was fed nothing.
    pub fn new(alloc: Global, keys: RandomState) -> Self
        ensures { StandsFor result [] }
    {
        LineReader::of_draft(alloc, Draft::new(alloc, keys))
    }

    // The same with room for so many quads and terms. More may come.
    pub(crate) fn with_capacity(
        alloc: Global,
        keys: RandomState,
        expected: usize,
    ) -> Result<Self, NoMemory>
        ensures { IfOk result (λ reader. StandsFor reader []) }
    {
        let draft = Draft::with_capacity(alloc, keys, expected, expected)?;
        Ok(LineReader::of_draft(alloc, draft))
    }

    // Takes the next piece, where no line was refused so far.
    fn take(&mut self, piece: &[u8]) -> Result<(), NoMemory>
        requires fed { self.old.fed + length piece.now ≤ MOST_BYTES }
        requires goes_on { self.old.fault ≡ None }
        ensures ok { (bytes : Text) → StandsFor self.old bytes → OnOk result (StandsFor self.new (bytes ++ piece.now)) }
        ensures fed { OnOk result (self.new.fed ≡ self.old.fed + length piece.now) }
        ensures err { OnErr result ((self.new.fault ≡ Some Memory) × (self.new.fed ≡ self.old.fed)) }
    {
        let alloc = *self.tail.allocator();
        match take_piece(
            alloc,
            &mut self.draft,
            &mut self.lines,
            &mut self.tail,
            self.after_cr,
            piece,
        ) {
            Ok(()) => {
                self.after_cr = ends_in_cr(self.after_cr, piece);
                self.fed += piece.len() as u64;
                Ok(())
            }
            Err(fault) => {
                let fault = fault.at_line(self.lines + 1);
                self.fault = Some(fault);
                self.tail.clear();
                self.after_cr = false;
                if fault.is_no_memory() {
                    return Err(NoMemory);
                }
                self.fed += piece.len() as u64;
                Ok(())
            }
        }
    }

    /// Takes the next piece. A line that is refused is told by `finish`; what follows it is not read.
    /// Once memory was refused, it is refused ever after.
    pub fn feed(&mut self, piece: &[u8]) -> Result<(), NoMemory>
        requires { self.old.fed + length piece.now ≤ MOST_BYTES }
        ensures ok { (bytes : Text) → StandsFor self.old bytes → OnOk result (StandsFor self.new (bytes ++ piece.now)) }
        ensures fed { OnOk result (self.new.fed ≡ self.old.fed + length piece.now) }
        ensures err { OnErr result ((self.new.fault ≡ Some Memory) × (self.new.fed ≡ self.old.fed)) }
        ensures refused { self.old.fault ≡ Some Memory → OnOk result ⊥ }
    {
        if let Some(fault) = self.fault {
            if fault.is_no_memory() {
                return Err(NoMemory);
            }
            self.fed += piece.len() as u64;
            return Ok(());
        }
        self.take(piece)
    }

    /// What the bytes of all pieces state together, as `read_nquads` says it.
    pub fn finish(self) -> Result<Parsed, ReadFault>
        ensures ok { (bytes : Text) → StandsFor self bytes → IfOk result (λ parsed. IsNQuads bytes parsed.labels (statements parsed)) }
        ensures within { IfOk result (λ parsed. length (statements parsed) ≤ MAX_QUADS) }
        ensures document { IfOk result IsDocument }
        ensures err { (bytes : Text) → StandsFor self bytes → IfErr result (IsCauseOf bytes) }
        ensures refused { self.fault ≡ Some Memory → IfErr result (λ fault. fault ≡ Memory) × OnOk result ⊥ }
    {
        let LineReader {
            mut draft,
            tail,
            after_cr: _,
            mut lines,
            fault,
            fed: _,
        } = self;
        if let Some(fault) = fault {
            return Err(fault);
        }
        let alloc = *tail.allocator();
        if let Err(fault) = read_lines(alloc, &mut draft, &mut lines, &tail) {
            return Err(fault.at_line(lines + 1));
        }
        if draft.quad_count() > MAX_QUADS {
            return Err(ReadFault::TooManyQuads);
        }
        Ok(draft.finish()?)
    }
}
