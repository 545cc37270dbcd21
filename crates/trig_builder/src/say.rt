//! Quads that are said, and blank nodes that are mentioned.
ghost use Rattle.std.specs.Prelude.{◌≡◌, ◌+◌, ◌<◌, ◌↔◌, length, IsTrue, IfOk, OnOk, IfSome};
ghost use Rattle.rdf_terms.specs.Terms.{IsIri, IsIriOrBlank, IsValidTerm, IsValidStatement};
ghost use Rattle.rdf_terms.specs.Document.{statements, Interns};
ghost use Rattle.rdf_terms.specs.References.{term_of, graph_name_of, label_of, statement_of};
ghost use Rattle.rdf_terms.specs.declared.term.Label.TheVariants.{Anonymous};
ghost use Rattle.trig_builder.specs.Numbered.{IsName, Says};

use crate::MAX_QUADS;
use rdf_terms::{Draft, LabelRef, NoMemory, StatementRef, Term, TermRef};

pub(crate) fn is_name(term: TermRef<'_>) -> bool
    ensures { IsTrue result ↔ IsIriOrBlank (term_of term.entry) }
{
    !matches!(term, TermRef::Literal(_))
}

pub(crate) fn is_iri(term: TermRef<'_>) -> bool
    ensures { IsTrue result ↔ IsIri (term_of term.entry) }
{
    matches!(term, TermRef::Iri(_))
}

fn graph_name_ref(graph_name: &Option<Term>) -> Option<TermRef<'_>>
    ensures { graph_name_of result ≡ graph_name.now }
{
    match graph_name {
        Some(term) => Some(term.as_ref()),
        None => None,
    }
}

// Adds the quad, unless there are more than may be already.
fn say(draft: &mut Draft, quad: StatementRef<'_>) -> Result<(), NoMemory>
    requires { IsValidStatement (length draft.old.labels) (statement_of quad) }
    ensures labels { draft.new.labels ≡ draft.old.labels }
    ensures says { OnOk result (Says (statements draft.old) (statement_of quad.entry) (statements draft.new)) }
{
    if draft.quad_count() <= MAX_QUADS {
        draft.add_ref(quad)?;
    }
    Ok(())
}

// Says the quad of these terms in the graph of this name.
pub(crate) fn say_in(
    draft: &mut Draft,
    graph_name: &Option<Term>,
    subject: TermRef<'_>,
    verb: TermRef<'_>,
    object: TermRef<'_>,
) -> Result<(), NoMemory>
    requires graph_name { IfSome graph_name.now (IsName (length draft.old.labels)) }
    requires subject { IsName (length draft.old.labels) (term_of subject) }
    requires verb { IsIri (term_of verb) }
    requires valid_verb { IsValidTerm (length draft.old.labels) (term_of verb) }
    requires object { IsValidTerm (length draft.old.labels) (term_of object) }
    ensures labels { draft.new.labels ≡ draft.old.labels }
    ensures says { OnOk result (Says (statements draft.old) (record { subject = term_of subject.entry; predicate = term_of verb.entry; object = term_of object.entry; graph_name = graph_name.now }) (statements draft.new)) }
{
    say(
        draft,
        StatementRef {
            subject,
            predicate: verb,
            object,
            graph_name: graph_name_ref(graph_name),
        },
    )
}

// The number in the draft of the blank node that is mentioned.
pub(crate) fn mention(draft: &mut Draft, label: LabelRef<'_>) -> Result<u32, NoMemory>
    ensures interns { IfOk result (Interns draft.old.labels draft.new.labels (label_of label.entry)) }
    ensures statements { statements draft.new ≡ statements draft.old }
{
    if draft.label_count() == u32::MAX {
        return Err(NoMemory);
    }
    draft.node_ref(label)
}

// The number of the blank node that is opened.
pub(crate) fn open(draft: &mut Draft, opened: &mut u32) -> Result<u32, NoMemory>
    ensures interns { IfOk result (Interns draft.old.labels draft.new.labels (Anonymous opened.old)) }
    ensures statements { statements draft.new ≡ statements draft.old }
    ensures opens { OnOk result (opened.new ≡ opened.old + 1) }
{
    if *opened == u32::MAX {
        return Err(NoMemory);
    }
    let node = mention(draft, LabelRef::Anonymous(*opened))?;
    *opened += 1;
    Ok(node)
}
