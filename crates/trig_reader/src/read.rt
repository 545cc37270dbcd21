//! A document whose bytes are all at hand.
ghost use Rattle.std.specs.Prelude.{◌≤◌, length, IfSome, IfOk, IfErr};
ghost use Rattle.std.specs.Option.{option_copied};
ghost use Rattle.rdf_terms.specs.Document.{statements, IsDocument};
ghost use Rattle.trig_builder.specs.Building.{IsWhole};
ghost use Rattle.trig_reader.specs.Document.{IsTriG, IsCauseOf};

use crate::line::line_at;
use crate::read_text::read_text;
use crate::{MAX_QUADS, TrigFault};
use rdf_terms::Parsed;
use simdutf8::compat::from_utf8;
use std::alloc::Global;
use std::hash::RandomState;

/// Reads a document (RDF 1.1 TriG, sections 4 and 5). A given base is an IRI with a scheme.
///
/// A label names one blank node in the whole document. Blank nodes are numbered from 0 in the order
/// in which their tokens mention or open them; one that stands in no quad is left out. The keys are
/// those of the tables' hashes; no answer depends on them.
pub fn read_trig(
    alloc: Global,
    keys: RandomState,
    bytes: &[u8],
    base: Option<&str>,
) -> Result<Parsed, TrigFault>
    requires { IfSome base (λ b. IsWhole b.now) }
    ensures ok { IfOk result (λ parsed. IsTriG bytes.now (option_copied base.entry) parsed.labels (statements parsed)) }
    ensures within { IfOk result (λ parsed. length (statements parsed) ≤ MAX_QUADS) }
    ensures document { IfOk result IsDocument }
    ensures err { IfErr result (IsCauseOf bytes.now (option_copied base.entry)) }
{
    let text = match from_utf8(bytes) {
        Ok(text) => text,
        Err(error) => {
            let line = line_at(bytes, error.valid_up_to());
            return Err(TrigFault::NotUtf8 { line });
        }
    };
    let draft = read_text(alloc, keys, text, base)?;
    if draft.quad_count() > MAX_QUADS {
        return Err(TrigFault::TooManyQuads);
    }
    Ok(draft.finish()?)
}
