//! What holds of documents, whatever reads them.
ghost use Rattle.std.specs.Prelude.{◌≡◌, ◌≢◌, ℕ, ◌<◌, ◌≤◌, List, All, map, length};
ghost use Rattle.rdf_terms.specs.Terms.{Statement, IsValidStatement};
ghost use Rattle.rdf_terms.specs.Lists.{Text, joined};
ghost use Rattle.rdf_terms.specs.Dataset.{Dataset, IsValid};
ghost use Rattle.rdf_terms.specs.CanonicalForm.{Naming, canonical_line, canonical_nquads};
ghost use Rattle.canonical_writer.specs.Determined.{HasPlainNames};
ghost use Rattle.rdf_terms.specs.declared.term.Label.{Label};
ghost use Rattle.nquads_reader.specs.Document.{IsNQuads, IsCauseOf};
ghost use Rattle.nquads_reader.specs.RoundTrip.{IsNumbered, ReadsBack};
ghost use Rattle.nquads_reader.specs.declared.fault.ReadFault.{ReadFault};
ghost use Rattle.nquads_reader.specs.declared.fault.ReadFault.TheVariants.{NoMemory};

use crate::MAX_QUADS;

/// The canonical text of a dataset is a document, and what is read of it is the dataset again, up to
/// the numbers of the nodes, with their names as labels.
pub fn written_text_reads_back()
    ensures read { (D : Dataset) (ν : Naming) → IsValid D → IsNumbered D.nodes ν → (labels : List Label) × (statements : List Statement) × IsNQuads (canonical_nquads D ν) labels statements }
    ensures back { (D : Dataset) (ν : Naming) → IsValid D → IsNumbered D.nodes ν → (labels : List Label) (statements : List Statement) → IsNQuads (canonical_nquads D ν) labels statements → ReadsBack D ν labels statements }
{}

/// Bytes that are N-Quads state one list of labels and one list of statements.
pub fn document_is_determined()
    ensures { (bytes : Text) (labels others : List Label) (statements more : List Statement) → IsNQuads bytes labels statements → IsNQuads bytes others more → (labels ≡ others) × (statements ≡ more) }
{}

/// Why bytes are not read is one thing, unless memory was refused.
pub fn cause_is_determined()
    ensures { (bytes : Text) (cause other : ReadFault) → IsCauseOf bytes cause → IsCauseOf bytes other → cause ≢ NoMemory → other ≢ NoMemory → cause ≡ other }
{}

/// The canonical lines of valid statements within the limit, under names of letters and digits, are read, unless memory is refused.
pub fn canonical_lines_have_no_cause()
    ensures { (ν : Naming) (nodes : ℕ) (sts : List Statement) → HasPlainNames nodes ν → ((n : ℕ) → n < nodes → 0 < length (ν n)) → All (IsValidStatement nodes) sts → length sts ≤ MAX_QUADS → (cause : ReadFault) → IsCauseOf (joined (map (canonical_line ν) sts)) cause → cause ≡ NoMemory }
{}

/// Bytes that are N-Quads within the limit are read, unless memory is refused.
pub fn document_within_the_limit_has_no_cause()
    ensures { (bytes : Text) (labels : List Label) (statements : List Statement) → IsNQuads bytes labels statements → length statements ≤ MAX_QUADS → (cause : ReadFault) → IsCauseOf bytes cause → cause ≡ NoMemory }
{}
