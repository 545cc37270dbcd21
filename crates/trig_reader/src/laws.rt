//! What holds of documents, whatever reads them.
ghost use Rattle.std.specs.Prelude.{◌≡◌, ◌≢◌, ◌≤◌, List, Option, length};
ghost use Rattle.rdf_terms.specs.Terms.{Statement};
ghost use Rattle.rdf_terms.specs.Lists.{Text};
ghost use Rattle.rdf_terms.specs.declared.term.Label.{Label};
ghost use Rattle.trig_reader.specs.Document.{IsTriG, IsCauseOf};
ghost use Rattle.trig_reader.specs.declared.fault.TrigFault.{TrigFault};
ghost use Rattle.trig_reader.specs.declared.fault.TrigFault.TheVariants.{NoMemory};

use crate::MAX_QUADS;

/// Bytes that are a document state, under one base, one list of labels and one list of statements.
pub fn document_is_determined()
    ensures { (bytes : Text) (base : Option Text) (labels others : List Label) (statements more : List Statement) → IsTriG bytes base labels statements → IsTriG bytes base others more → (labels ≡ others) × (statements ≡ more) }
{}

/// Why bytes are not read is one thing, unless memory was refused.
pub fn cause_is_determined()
    ensures { (bytes : Text) (base : Option Text) (cause other : TrigFault) → IsCauseOf bytes base cause → IsCauseOf bytes base other → cause ≢ NoMemory → other ≢ NoMemory → cause ≡ other }
{}

/// Bytes that are a document within the limit are read, unless memory is refused.
pub fn document_within_the_limit_has_no_cause()
    ensures { (bytes : Text) (base : Option Text) (labels : List Label) (statements : List Statement) → IsTriG bytes base labels statements → length statements ≤ MAX_QUADS → (cause : TrigFault) → IsCauseOf bytes base cause → cause ≡ NoMemory }
{}
