//! The recursion list of a permutation (RDF Dataset Canonicalization, section 4.8, step 5.4.5).

ghost use Rattle.std.specs.Prelude.{◌≡◌, ◌≤◌, OnOk, IfOk};
ghost use Rattle.canon_model.specs.CountedRun.{nothing};
ghost use Rattle.ndegree_hash.specs.FramePlaces.{IsAt, IsInRecursion};
ghost use Rattle.ndegree_hash.specs.FrameSteps.{Leads, Resumes};
ghost use Rattle.ndegree_hash.specs.OwedTies.{owed};
ghost use Rattle.ndegree_hash.specs.KnownNodes.{Keeps, IsKnown};
ghost use Rattle.rdf_terms.specs.Dataset.{Dataset as AbstractDataset};

use crate::at::At;
use crate::frame::Frame;
use canon_model::HexHash;
use id_issuer::Issuer;
use rdf_terms::{NoMemory, Prefix};

// Makes the next call of the recursion list.
pub(crate) fn next_call(canon: &Issuer, trail: &Issuer, frame: &mut Frame) -> Result<At, NoMemory>
    requires at { IsAt trail.now.list frame.old At.Recursion }
    requires canonical { canon.now.prefix ≡ Prefix.Canonical }
    requires temporary { trail.now.prefix ≡ Prefix.Temporary }
    ensures leads { IfOk result (λ at. Leads canon.now.list trail.now.list frame.old At.Recursion nothing trail.now.list frame.new at) }
    ensures keeps { OnOk result (Keeps canon.now.list trail.now.list frame.old trail.now.list frame.new) }
    ensures owes { IfOk result (λ at. owed frame.new at ≤ owed frame.old At.Recursion) }
{
    if frame.next == frame.last {
        return Ok(At::Ended);
    }
    let node = trail.list()[frame.next as usize];
    frame.paths.push_label(canon, trail, node)?;
    frame.paths.push(b"<")?;
    frame.next += 1;
    Ok(At::Call(node))
}

// Takes the hash of the call that the frame waits for.
pub(crate) fn resume(
    canon: &Issuer,
    trail: &Issuer,
    frame: &mut Frame,
    hash: &HexHash,
) -> Result<At, NoMemory>
    requires { IsInRecursion trail.now.list frame.old }
    ensures resumes { IfOk result (λ at. Resumes canon.now.list trail.now.list frame.old hash.now frame.new at) }
    ensures known { OnOk result ((D : AbstractDataset) → IsKnown D canon.now.list trail.now.list frame.old → IsKnown D canon.now.list trail.now.list frame.new) }
    ensures owes { IfOk result (λ at. owed frame.new at ≤ owed frame.old At.Recursion) }
{
    frame.paths.push(hash.as_bytes())?;
    frame.paths.push(b">")?;
    if frame.paths.is_past() {
        return Ok(At::Between);
    }
    Ok(At::Recursion)
}
