//! A run on files in TriG, and how it has to end.
use run_trials::{Ending, Trial, done, nothing_written, outcome_of, plain};
use std::alloc::Global;
use std::hash::RandomState;
use std::process::Abort;
use std::test::Fail;

pub(crate) fn expect(
    rt: &impl Abort,
    alloc: Global,
    keys: RandomState,
    trial: &Trial<'_>,
    want: Ending<'_>,
) -> Result<(), Fail> {
    let ended = outcome_of(alloc, keys, trial)?;
    assert_eq!(rt; ended.ending(), want, "{:?} {}", trial.words, trial.text);
    Ok(())
}

fn canon(text: &str) -> Trial<'_> {
    plain(&["canon", "--trig", "f"], text)
}

// The canonical form of the text is this one.
pub(crate) fn expect_form(
    rt: &impl Abort,
    alloc: Global,
    keys: RandomState,
    text: &str,
    form: &str,
) -> Result<(), Fail> {
    expect(rt, alloc, keys, &canon(text), done(form))
}

// The text is refused with this note.
pub(crate) fn expect_refusal(
    rt: &impl Abort,
    alloc: Global,
    keys: RandomState,
    text: &str,
    note: &str,
) -> Result<(), Fail> {
    expect(rt, alloc, keys, &canon(text), nothing_written(4, note))
}
