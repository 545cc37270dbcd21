//! A document whose bytes are all at hand.
ghost use Rattle.std.specs.Prelude.{◌≤◌, length, IfOk, IfErr};
ghost use Rattle.rdf_terms.specs.Document.{statements, IsDocument};
ghost use Rattle.nquads_reader.specs.Document.{IsNQuads, IsCauseOf};

use crate::{LineReader, MAX_QUADS, MOST_BYTES, ReadFault};
use rdf_terms::Parsed;
use std::alloc::Global;
use std::hash::RandomState;

// A file gets room for one quad and one term for each so many bytes at once, and more as it needs it.
const EXPECTED_LINE: usize = 64;

/// Reads a document (RDF 1.1 N-Quads, sections 4 and 5).
///
/// A line ends at LF, at CR LF or at a CR alone. A label names one node in the whole document, and
/// nodes are numbered from 0 by their first mention, in a line as subject, object and graph name.
/// The keys are those of the tables' hashes; no answer depends on them.
pub fn read_nquads(alloc: Global, keys: RandomState, bytes: &[u8]) -> Result<Parsed, ReadFault>
    requires { length bytes.now ≤ MOST_BYTES }
    ensures ok { IfOk result (λ parsed. IsNQuads bytes.now parsed.labels (statements parsed)) }
    ensures within { IfOk result (λ parsed. length (statements parsed) ≤ MAX_QUADS) }
    ensures document { IfOk result IsDocument }
    ensures err { IfErr result (IsCauseOf bytes.now) }
{
    let mut reader = LineReader::with_capacity(alloc, keys, bytes.len() / EXPECTED_LINE)?;
    reader.feed(bytes)?;
    reader.finish()
}
