//! Neighbouring quads of one subject.

ghost use Rattle.std.specs.Prelude.{◌≡◌, ◌==◌, ◌≤◌, [], length, map, sum, All, IfOk};
ghost use Rattle.std.specs.List.{prefix_len, flat_map, zip, AllZip};
ghost use Rattle.std.specs.List.Sorted.{IsPermutation};
ghost use Rattle.rdf_terms.specs.Document.{statement, IsInRange};
ghost use Rattle.canonical_writer.specs.Names.{HasNames};
ghost use Rattle.canonical_writer.specs.Pieces.{pieces};
ghost use Rattle.canonical_writer.specs.Runs.{IsRun, KeysAscend};

use crate::lines::Lines;
use crate::named_terms::NamedTerms;
use crate::names::Names;
use crate::run_order::sort_by_key;
use rdf_terms::{NoMemory, Quad};
use std::alloc::Global;

// How many bytes of room are asked for each key before the keys are written. Where they take more, the buffer grows.
const KEY_ROOM: usize = 32;

// Quads of one subject, and the text that their lines begin with: the subject and a space. A number of
// eight bytes of this key stands beside it, so that two runs compare without a look at their keys, which
// lie far apart in memory. It is set when the runs are put in order, and 0 before.
#[derive(Clone, Copy, Debug)]
pub(crate) struct Run<'a> {
    pub(crate) number: u64,
    pub(crate) key: &'a [u8],
    pub(crate) quads: &'a [Quad],
}

// How many quads at the front have this subject.
fn subject_len(quads: &[Quad], subject: u32) -> usize
    ensures { result ≡ prefix_len (λ q. q.s == subject) quads.now }
{
    quads.iter().take_while(|quad| quad.s == subject).count()
}

// Cuts the quads where one has another subject than the one before it, and writes the key of each
// stretch.
pub(crate) fn cut_at_subjects<'a, N: Names>(
    alloc: Global,
    named: &NamedTerms<'_, N>,
    quads: &'a [Quad],
    keys: &mut Lines,
) -> Result<Vec<&'a [Quad]>, NoMemory>
    requires none { keys.old ≡ [] }
    requires in_range { All (IsInRange named.now.terms.now) quads.now }
    requires named { All (λ q. HasNames (N.name named.now.names.now) (statement named.now.terms.now q)) quads.now }
    ensures whole { IfOk result (λ v. flat_map (λ p. p.now) v.items ≡ quads.now) }
    ensures runs { IfOk result (λ v. AllZip (λ k p. IsRun (N.name named.now.names.now) named.now.terms.now k p.now) keys.new v.items) }
{
    // In ascending quads each subject has one stretch.
    let subjects = quads.len().min(named.terms.len() as usize);
    keys.reserve(subjects, subjects.saturating_mul(KEY_ROOM))?;
    let mut stretches = Vec::with_capacity(alloc, subjects)?;
    let mut rest = quads;
    while let Some(first) = rest.first() {
        let (stretch, behind) = rest.split_at(subject_len(rest, first.s));
        keys.push_start(named, first.s)?;
        stretches.push(stretch)?;
        rest = behind;
    }
    Ok(stretches)
}

// Each stretch with its key. The keys lie in the text one after the other, and have these lengths.
fn with_keys<'a>(
    alloc: Global,
    text: &'a [u8],
    lengths: &[usize],
    stretches: &[&'a [Quad]],
) -> Result<Vec<Run<'a>>, NoMemory>
    requires fit { sum lengths.now ≤ length text.now }
    requires as_many { length lengths.now ≡ length stretches.now }
    ensures { IfOk result (λ v. map (λ r. (r.key.now, r.quads.now)) v.items ≡ zip (pieces text.now lengths.now) (map (λ p. p.now) stretches.now)) }
{
    let mut runs = Vec::with_capacity(alloc, stretches.len())?;
    let mut rest = text;
    for (place, length) in lengths.iter().enumerate() {
        let (key, behind) = rest.split_at(*length);
        runs.push(Run {
            number: 0,
            key,
            quads: stretches[place],
        })?;
        rest = behind;
    }
    Ok(runs)
}

// The stretches with their keys, in the order of the keys.
pub(crate) fn sorted_runs<'a>(
    alloc: Global,
    keys: &'a Lines,
    stretches: &[&'a [Quad]],
) -> Result<Vec<Run<'a>>, NoMemory>
    requires { length keys.now ≡ length stretches.now }
    ensures permutation { IfOk result (λ v. IsPermutation (zip keys.now (map (λ p. p.now) stretches.now)) (map (λ r. (r.key.now, r.quads.now)) v.items)) }
    ensures sorted { IfOk result (λ v. KeysAscend (λ r. r.key.now) v.items) }
{
    let mut runs = with_keys(alloc, keys.text(), keys.lengths(), stretches)?;
    sort_by_key(&mut runs);
    Ok(runs)
}
