//! Two files, and the map of the nodes of the one to those of the other.
ghost use Rattle.std.specs.Prelude.{◌≡◌, ◌++◌, length, IfOk, IfErr, OnOk, codes};
ghost use Rattle.rdfc_cli.specs.Answers.{Content};
ghost use Rattle.rdfc_cli.specs.Forms.{HasNodesBelow, HasPairsBelow, IsFormOf, IsPairOutput, IsPairStop, IsVerdictOutput, IsVerdictStop};
ghost use Rattle.rdfc_cli.specs.Reports.{pair_line, pairs_text, label_text};

use crate::form::Form;
use crate::options::Settings;
use crate::output::Output;
use crate::report::push_label;
use crate::status::Status;
use iso_compare::{Verdict, compare_forms};
use rdf_terms::{Bytes, Label, NoMemory};
use std::alloc::Global;

fn push_pair(out: &mut Vec<u8>, label: &Label, other: &Label) -> Result<(), NoMemory>
    ensures { OnOk result (out.new.items ≡ out.old.items ++ (label_text label.now ++ (codes " " ++ (label_text other.now ++ codes "\n")))) }
{
    push_label(out, label)?;
    out.extend_from_slice(b" ")?;
    push_label(out, other)?;
    out.extend_from_slice(b"\n")?;
    Ok(())
}

// A line for each pair of nodes.
fn text_of_pairs(
    alloc: Global,
    labels: &[Label],
    others: &[Label],
    pairs: &[(u32, u32)],
) -> Result<Bytes, NoMemory>
    requires { HasPairsBelow (length labels.now) (length others.now) pairs.now }
    ensures { IfOk result (λ text. text ≡ pairs_text labels.now others.now pairs.now) }
{
    let mut out = Vec::new(alloc);
    for pair in pairs {
        let (node, partner) = *pair;
        push_pair(&mut out, &labels[node as usize], &others[partner as usize])?;
    }
    Ok(Bytes::new(out))
}

// What is written of a verdict, or the status that tells it.
fn output_of_verdict(
    alloc: Global,
    labels: &[Label],
    others: &[Label],
    verdict: Verdict,
) -> Result<Output, Status>
    requires { HasNodesBelow (length labels.now) (length others.now) verdict }
    ensures output { IfOk result (IsVerdictOutput labels.now others.now verdict) }
    ensures stops { IfErr result (IsVerdictStop verdict) }
{
    match verdict {
        Verdict::Same(map) => Ok(Output {
            text: text_of_pairs(alloc, labels, others, map.pairs.as_slice())?,
            unsettled: None,
        }),
        Verdict::Different => Err(Status::Different),
        Verdict::Undecided(tie, other) => Err(Status::Undecided(tie, other)),
    }
}

// What is written of two files by their forms, or why nothing is.
pub(crate) fn output_of_forms(
    alloc: Global,
    settings: Settings,
    first: Form,
    second: Form,
) -> Result<Output, Status>
    requires first { (content : Content) × IsFormOf settings content first }
    requires second { (content : Content) × IsFormOf settings content second }
    ensures output { IfOk result (λ output. (content other : Content) → IsFormOf settings content first → IsFormOf settings other second → IsPairOutput settings content other output) }
    ensures stops { IfErr result (λ status. (content other : Content) → IsFormOf settings content first → IsFormOf settings other second → IsPairStop settings content other status) }
{
    let limit = settings.limit;
    let Form { canon, labels } = first;
    let Form {
        canon: other,
        labels: others,
    } = second;
    let Some(canon) = canon else {
        return Err(Status::WorkLimit { file: 0, limit });
    };
    let Some(other) = other else {
        return Err(Status::WorkLimit { file: 1, limit });
    };
    let verdict = compare_forms(alloc, canon, other)?;
    output_of_verdict(alloc, &labels, &others, verdict)
}
