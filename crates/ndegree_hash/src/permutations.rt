//! The permutations of a group (RDF Dataset Canonicalization, section 4.8, step 5.4).

ghost use Rattle.std.specs.Prelude.{◌≡◌, ◌<◌, ◌≤◌, suc, length, drop, OnOk, IfOk, All};
ghost use Rattle.canon_model.specs.CountedRun.{nothing, one_unit};
ghost use Rattle.ndegree_hash.specs.FramePlaces.{IsAt};
ghost use Rattle.ndegree_hash.specs.FrameSteps.{Leads, IsAside};
ghost use Rattle.ndegree_hash.specs.OwedTies.{owed};
ghost use Rattle.ndegree_hash.specs.KnownNodes.{Keeps};

use crate::at::At;
use crate::frame::Frame;
use crate::walk::walk;
use id_issuer::{Issuer, Mark};
use rdf_terms::{NoMemory, NodeList, Prefix};
use std::alloc::Global;

// Writes the permutation that stands in the frame.
pub(crate) fn begin(canon: &Issuer, trail: &mut Issuer, frame: &mut Frame) -> Result<At, NoMemory>
    requires at { IsAt trail.old.list frame.old At.Begin }
    requires nodes { All (λ n. n < u32.MAX) frame.old.arrangement }
    requires canonical { canon.now.prefix ≡ Prefix.Canonical }
    requires temporary { trail.old.prefix ≡ Prefix.Temporary }
    ensures leads { IfOk result (λ at. Leads canon.now.list trail.old.list frame.old At.Begin one_unit trail.new.list frame.new at) }
    ensures keeps { OnOk result (Keeps canon.now.list trail.old.list frame.old trail.new.list frame.new) }
    ensures owes { IfOk result (λ at. owed frame.new at ≤ suc (owed frame.old At.Begin)) }
    ensures prefix { trail.new.prefix ≡ trail.old.prefix }
{
    frame.paths.begin_path();
    let skipped = walk(canon, trail, frame.arrangement.nodes(), &mut frame.paths)?;
    if skipped {
        return Ok(At::Between);
    }
    frame.next = frame.mark;
    frame.last = trail.mark().length;
    Ok(At::Recursion)
}

// The nodes of the trail behind a mark.
fn behind_mark(alloc: Global, trail: &Issuer, mark: u32) -> Result<Vec<u32>, NoMemory>
    requires { mark ≤ length trail.now.list }
    ensures { IfOk result (λ tail. tail.items ≡ drop mark trail.now.list) }
{
    let list = trail.list();
    Ok(list[mark as usize..].to_vec(alloc)?)
}

// Compares a permutation that was tried to its end with what was chosen.
pub(crate) fn choose(
    alloc: Global,
    canon: &Issuer,
    trail: &Issuer,
    frame: &mut Frame,
) -> Result<At, NoMemory>
    requires { IsAt trail.now.list frame.old At.Ended }
    ensures leads { IfOk result (λ at. Leads canon.now.list trail.now.list frame.old At.Ended nothing trail.now.list frame.new at) }
    ensures keeps { OnOk result (Keeps canon.now.list trail.now.list frame.old trail.now.list frame.new) }
    ensures owes { IfOk result (λ at. owed frame.new at ≤ owed frame.old At.Ended) }
{
    if frame.paths.is_better() {
        frame.paths.choose_path();
        frame.others.clear();
        frame.on_trail = true;
        return Ok(At::Between);
    }
    if frame.paths.is_same() {
        let tail = behind_mark(alloc, trail, frame.mark)?;
        frame.others.push(NodeList::new(tail))?;
    }
    Ok(At::Between)
}

// Keeps the chosen issuer aside where it is the trail as it stands.
fn keep_aside(alloc: Global, trail: &Issuer, frame: &mut Frame) -> Result<(), NoMemory>
    requires { frame.old.mark ≤ length trail.now.list }
    ensures { OnOk result (IsAside trail.now.list frame.old frame.new) }
{
    if frame.on_trail {
        frame.tail = behind_mark(alloc, trail, frame.mark)?;
        frame.on_trail = false;
    }
    Ok(())
}

// Goes on to the next permutation of the group, or to the group's end.
pub(crate) fn next_permutation(
    alloc: Global,
    canon: &Issuer,
    trail: &mut Issuer,
    frame: &mut Frame,
) -> Result<At, NoMemory>
    requires { IsAt trail.old.list frame.old At.Between }
    ensures leads { IfOk result (λ at. Leads canon.now.list trail.old.list frame.old At.Between nothing trail.new.list frame.new at) }
    ensures keeps { OnOk result (Keeps canon.now.list trail.old.list frame.old trail.new.list frame.new) }
    ensures owes { IfOk result (λ at. owed frame.new at ≤ owed frame.old At.Between) }
    ensures prefix { trail.new.prefix ≡ trail.old.prefix }
{
    if !frame.arrangement.next() {
        return Ok(At::Close);
    }
    keep_aside(alloc, trail, frame)?;
    trail.undo(Mark { length: frame.mark });
    Ok(At::Begin)
}
