//! The hash of lines in byte order.

ghost use Rattle.std.specs.Prelude.{◌≡◌, IfOk};
ghost use Rattle.rdf_terms.specs.Lists.{joined, sorted};
ghost use Rattle.canon_model.specs.Meaning.{meaning};

use canon_model::{HexHash, Profile};
use canonical_writer::Lines;
use profile_hash::{hash_of_pieces, hash_of_text};
use rdf_terms::NoMemory;
use std::alloc::Global;

// The hash of the lines in byte order, one after the other.
#[tactic(auto, using(canonical_writer::proofs::Pieces::sorted_short))]
pub(crate) fn hash_sorted(
    alloc: Global,
    lines: &Lines,
    profile: Profile,
) -> Result<HexHash, NoMemory>
    ensures { IfOk result (λ hash. hash ≡ (meaning profile).hash (joined (sorted lines.now))) }
{
    if lines.len() < 2 {
        return Ok(hash_of_text(lines.text(), profile));
    }
    let sorted = lines.sorted(alloc)?;
    Ok(hash_of_pieces(sorted.as_slice(), profile))
}
