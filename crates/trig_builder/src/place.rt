//! Where the next term of a document stands.
ghost use Rattle.std.specs.Prelude.{◌≡◌};
ghost use Rattle.trig_builder.specs.Telling.{graph_at, with_verb, without_verb};

use rdf_terms::Term;

// Where the next term stands. The terms before it that it stands behind are copies of its own,
// and the cells of collections are blank nodes, by their numbers in the draft.
#[derive(Debug, Drop)]
pub(crate) enum Place {
    // The subject of triples, or the label of a graph.
    AtSubject,
    // The verb behind this subject, or a `{` behind this label.
    AtVerb(Term),
    // An object of this subject and verb.
    AtObject(Term, Term),
    // An item of a collection, of which this is the last cell so far.
    InItems(Option<u32>),
    // The item of this cell.
    AtItem(u32),
    // The prefix that a directive sets.
    AtPrefixName,
    // The IRI that it sets the prefix to.
    AtPrefixIri,
    // The IRI that a directive sets the base to.
    AtBaseIri,
}

impl Place {
    // What names the graph that begins here.
    pub(crate) fn graph_name(self) -> Option<Term>
        ensures { result ≡ graph_at self }
    {
        match self {
            Place::AtVerb(label) => Some(label),
            _ => None,
        }
    }

    // Behind the verb of the subject.
    pub(crate) fn with_verb(self, verb: Term) -> Place
        ensures { result ≡ with_verb verb self }
    {
        match self {
            Place::AtVerb(subject) => Place::AtObject(subject, verb),
            other => other,
        }
    }

    // Behind the subject again, before its next verb.
    pub(crate) fn without_verb(self) -> Place
        ensures { result ≡ without_verb self }
    {
        match self {
            Place::AtObject(subject, _) => Place::AtVerb(subject),
            other => other,
        }
    }
}
