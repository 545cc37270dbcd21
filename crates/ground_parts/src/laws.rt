//! Hashing, ties and lists go by the quads with blank nodes, and a dataset in parts has the merge of
//! their forms. Each law is a contract, and the functions do nothing.

ghost use Rattle.ground_parts.specs.Laws.{CanonicalListsGoByNodes, CountedCallsGoByNodes, CountedRunsGoByNodes, FirstDegreeHashesGoByNodes, GroundQuadsMayBeAdded, GroundQuadsMayBeLeftOut, GroupsGoByNodes, JoinedTiesGoByNodes, JoinsGoByNodes, OutcomesGoByNodes, RelatedHashesGoByNodes, SameQuadsWithNodesIsEquivalence, SymmetriesGoByNodes};
ghost use Rattle.ground_parts.specs.Lines.{MergesAreOne, MergesOfMerges};
ghost use Rattle.ground_parts.specs.Parts.{ChosenFormIsMerge, GroundHasOneOutput, OutputsAreMerges, PartsMakeOne, RunIsThatOfPart};

/// To have the same quads with blank nodes is an equivalence of datasets.
pub fn same_quads_with_nodes_is_equivalence()
    ensures { SameQuadsWithNodesIsEquivalence }
{}

/// Ground quads may be added to a dataset: its quads with blank nodes stay the same.
pub fn ground_quads_may_be_added()
    ensures { GroundQuadsMayBeAdded }
{}

/// All ground quads may be left out, and what is left is a dataset.
pub fn ground_quads_may_be_left_out()
    ensures { GroundQuadsMayBeLeftOut }
{}

/// First-degree hashes do not depend on ground quads.
pub fn first_degree_hashes_go_by_nodes()
    ensures { FirstDegreeHashesGoByNodes }
{}

/// Hashes of related nodes do not depend on ground quads.
pub fn related_hashes_go_by_nodes()
    ensures { RelatedHashesGoByNodes }
{}

/// Groups of related nodes do not depend on ground quads.
pub fn groups_go_by_nodes()
    ensures { GroupsGoByNodes }
{}

/// Outcomes of Hash N-Degree Quads do not depend on ground quads.
pub fn outcomes_go_by_nodes()
    ensures { OutcomesGoByNodes }
{}

/// The lists that the standard allows do not depend on ground quads.
pub fn canonical_lists_go_by_nodes()
    ensures { CanonicalListsGoByNodes }
{}

/// What a call counts, logs and gives does not depend on ground quads.
pub fn counted_calls_go_by_nodes()
    ensures { CountedCallsGoByNodes }
{}

/// What the run counts, logs and gives does not depend on ground quads.
pub fn counted_runs_go_by_nodes()
    ensures { CountedRunsGoByNodes }
{}

/// No ground quad breaks a symmetry, nor makes one.
pub fn symmetries_go_by_nodes()
    ensures { SymmetriesGoByNodes }
{}

/// Whether a tie is joined does not depend on ground quads.
pub fn joined_ties_go_by_nodes()
    ensures { JoinedTiesGoByNodes }
{}

/// Whether a run is settled does not depend on ground quads, nor how many of its ties are joined,
/// nor which is the first that is not.
pub fn joins_go_by_nodes()
    ensures { JoinsGoByNodes }
{}

/// Texts have one merge at most.
pub fn merges_are_one()
    ensures { MergesAreOne }
{}

/// A merge may be made of merges, in any grouping.
pub fn merges_of_merges()
    ensures { MergesOfMerges }
{}

/// A dataset and ground datasets make a dataset, which has the quads with blank nodes of the
/// first.
pub fn parts_make_one()
    ensures { PartsMakeOne }
{}

/// The run of the whole is that of the part with the blank nodes: its units, its ties, its list, and
/// which ties are joined.
pub fn run_is_that_of_part()
    ensures { RunIsThatOfPart }
{}

/// A ground dataset has one output.
pub fn ground_has_one_output()
    ensures { GroundHasOneOutput }
{}

/// A text is allowed for the whole exactly where it is the merge of texts that are allowed for the
/// parts.
pub fn outputs_are_merges()
    ensures { OutputsAreMerges }
{}

/// The form that is chosen for the whole is the merge of those that are chosen for the parts.
pub fn chosen_form_is_merge()
    ensures { ChosenFormIsMerge }
{}
