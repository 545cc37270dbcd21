//! The lines of many quads in byte order.

ghost use Rattle.std.specs.Prelude.{◌≡◌, ◌++◌, map, true, All, IfOk, OnOk};
ghost use Rattle.std.specs.Io.{StartsWith};
ghost use Rattle.std.specs.Bool.{Decides};
ghost use Rattle.std.specs.List.{flat_map};
ghost use Rattle.rdf_terms.specs.CanonicalForm.{canonical_line};
ghost use Rattle.rdf_terms.specs.Document.{statement, IsInRange};
ghost use Rattle.rdf_terms.specs.Lists.{sorted, joined, is_at_most};
ghost use Rattle.canonical_writer.specs.Names.{naming_of, HasNames};
ghost use Rattle.canonical_writer.specs.Runs.{lines_of, IsRun, KeysAscend};

use crate::lines::Lines;
use crate::named_terms::NamedTerms;
use crate::names::Names;
use crate::room::make_room;
use crate::runs::{Run, cut_at_subjects, sorted_runs};
use rdf_terms::{Bytes, NoMemory, Quad, TermTable};
use std::alloc::Global;

// How many bytes of room are asked for each line before the lines are written. Most lines take less;
// where they take more, the buffer grows.
const LINE_ROOM: usize = 64;

/// The canonical lines of the quads in byte order, one after the other. A quad that is there twice
/// has its line twice.
pub fn write_sorted<N: Names>(
    alloc: Global,
    terms: &TermTable,
    quads: &[Quad],
    names: &N,
) -> Result<Bytes, NoMemory>
    requires in_range { All (IsInRange terms.now) quads.now }
    requires named { All (λ q. HasNames (N.name names.now) (statement terms.now q)) quads.now }
    ensures { IfOk result (λ text. text ≡ joined (sorted (map (canonical_line (naming_of (N.name names.now))) (map (statement terms.now) quads.now)))) }
{
    let named = NamedTerms { terms, names };
    let mut keys = Lines::new(alloc);
    let stretches = cut_at_subjects(alloc, &named, quads, &mut keys)?;
    let runs = sorted_runs(alloc, &keys, stretches.as_slice())?;
    drop(stretches);
    let room = quads.len().saturating_mul(LINE_ROOM);
    write_runs(alloc, room, &named, runs.as_slice())
}

// The lines of the runs in byte order, one after the other, in one buffer with room for so many
// bytes from the start. A run and those behind it whose keys go on behind its own make a group: all
// lines of a group are before those of the next.
fn write_runs<N: Names>(
    alloc: Global,
    room: usize,
    named: &NamedTerms<'_, N>,
    runs: &[Run<'_>],
) -> Result<Bytes, NoMemory>
    requires runs { All (λ r. IsRun (N.name named.now.names.now) named.now.terms.now r.key.now r.quads.now) runs.now }
    requires sorted { KeysAscend (λ r. r.key.now) runs.now }
    ensures { IfOk result (λ text. text ≡ joined (sorted (flat_map (λ r. lines_of (naming_of (N.name named.now.names.now)) named.now.terms.now r.quads.now) runs.now))) }
{
    let mut text = Vec::with_capacity(alloc, room)?;
    let mut group = Lines::new(alloc);
    let mut front = first_key(runs);
    for (place, run) in runs.iter().enumerate() {
        make_room(&mut text, named.terms, runs, place)?;
        if !begins_with(run.key, front) {
            group.append_sorted(alloc, &mut text)?;
            group.clear();
            front = run.key;
        }
        push_lines(&mut group, run.key, named, run.quads)?;
    }
    group.append_sorted(alloc, &mut text)?;
    Ok(Bytes::new(text))
}

// The key of the first run.
fn first_key<'a>(runs: &[Run<'a>]) -> &'a [u8]
    requires { KeysAscend (λ r. r.key.now) runs.now }
    ensures { All (λ r. is_at_most result.now r.key.now ≡ true) runs.now }
{
    match runs.first() {
        Some(run) => run.key,
        None => b"",
    }
}

fn begins_with(text: &[u8], front: &[u8]) -> bool
    ensures { Decides result (StartsWith text.now front.now) }
{
    text.starts_with(front)
}

// Adds the lines of a run, each of which begins with its key.
fn push_lines<N: Names>(
    lines: &mut Lines,
    key: &[u8],
    named: &NamedTerms<'_, N>,
    quads: &[Quad],
) -> Result<(), NoMemory>
    requires { IsRun (N.name named.now.names.now) named.now.terms.now key.now quads.now }
    ensures { OnOk result (lines.new ≡ lines.old ++ lines_of (naming_of (N.name named.now.names.now)) named.now.terms.now quads.now) }
{
    for quad in quads {
        lines.push_behind(key, named, *quad)?;
    }
    Ok(())
}
