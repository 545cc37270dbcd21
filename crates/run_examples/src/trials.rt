//! A run, and what it is to end with.
use run_trials::{Ended, Ending, Trial, outcome_of, plain};
use std::alloc::Global;
use std::hash::RandomState;
use std::process::Abort;
use std::test::Fail;

pub(crate) fn assert_ended(rt: &impl Abort, ended: &Ended, want: Ending<'_>, trial: &Trial<'_>) {
    assert_eq!(rt; ended.ending(), want, "{:?} {}", trial.words, trial.text);
}

pub(crate) fn expect(
    rt: &impl Abort,
    alloc: Global,
    keys: RandomState,
    trial: &Trial<'_>,
    want: Ending<'_>,
) -> Result<(), Fail> {
    let ended = outcome_of(alloc, keys, trial)?;
    assert_ended(rt, &ended, want, trial);
    Ok(())
}

pub(crate) fn canon(text: &str) -> Trial<'_> {
    plain(&["canon", "f"], text)
}
