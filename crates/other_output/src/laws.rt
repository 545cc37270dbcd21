//! What holds of the outputs of a dataset and of its forms along a tie, whatever computes them. Each law is a contract,
//! and the functions do nothing.
ghost use Rattle.other_output.specs.Answers.{OneOpenness, SettledWhereNone, ToldByForms};
ghost use Rattle.other_output.specs.NewResults.{KnownAlongNewResults, OtherFormAlongNewResults};
ghost use Rattle.other_output.specs.OneForm.{OneFormAlong, OneLimitAlong};
ghost use Rattle.other_output.specs.SharedOutputs.{OutputsOfIsomorphic};
ghost use Rattle.other_output.specs.TwoOutcomes.{TwoOutcomesGiveTwoOutputs};

/// An output that is allowed for a dataset is allowed for every isomorphic one.
pub fn outputs_of_isomorphic()
    ensures { OutputsOfIsomorphic }
{}

/// There is one form along a tie, whichever of the datasets that are numbered along it is taken.
pub fn one_form_along()
    ensures { OneFormAlong }
{}

/// And one answer to whether the run along a tie passes a limit.
pub fn one_limit_along()
    ensures { OneLimitAlong }
{}

/// It is answered that every tie is joined exactly where the run has kept none that is not.
pub fn settled_where_none()
    ensures { SettledWhereNone }
{}

/// Where the run has kept one, another output is answered exactly where the form along it differs from that of the
/// run, and that none is known exactly where the two are equal.
pub fn told_by_forms()
    ensures { ToldByForms }
{}

/// No two answers are true of one run.
pub fn one_openness()
    ensures { OneOpenness }
{}

/// Where the first tie that is not joined is of two results that are new when the run comes to them, the form along it
/// is not that of the run.
pub fn other_form_along_new_results()
    ensures { OtherFormAlongNewResults }
{}

/// So it is not answered then that no other output is known.
pub fn known_along_new_results()
    ensures { KnownAlongNewResults }
{}

/// Where a start node has two outcomes that no symmetry carries to one another, and may be issued for with either, two
/// outputs are allowed that differ.
pub fn two_outcomes_give_two_outputs()
    ensures { TwoOutcomesGiveTwoOutputs }
{}
