//! From a file to its dataset.
ghost use Rattle.std.specs.Prelude.{◌≡◌, ◌≤◌, length, Option, IfOk, IfErr, IfSome};
ghost use Rattle.std.specs.Option.{option_copied};
ghost use Rattle.rdf_terms.specs.Lists.{Text};
ghost use Rattle.rdf_terms.specs.Document.{statements};
ghost use Rattle.nquads_reader.specs.Document.{IsCauseOf as IsLineCauseOf};
ghost use Rattle.nquads_reader.specs.Pieces.{StandsFor};
ghost use Rattle.trig_builder.specs.Building.{IsWhole as IsBase};
ghost use Rattle.trig_reader.specs.Document.{IsCauseOf as IsTriGCauseOf};
ghost use Rattle.rdfc_cli.specs.Answers.{States, Accepts, seen};
ghost use Rattle.rdfc_cli.specs.FileFaults.{content_of, IsFileFault, IsTextFault};
ghost use Rattle.rdfc_cli.specs.Requests.{syntax_of, HasGoodBase};
ghost use Rattle.rdfc_cli.specs.Words.{Syntax as WordsSyntax};
ghost use Rattle.rdfc_cli.specs.Words.Syntax.{nquads, trig};

use crate::files::{FILE_LIMIT, FileFault, feed_file};
use crate::options::Syntax;
use crate::status::Cause;
use dataset_index::Dataset;
use nquads_reader::{LineReader, ReadFault};
use outside::Shelf;
use rdf_terms::Parsed;
use std::alloc::Global;
use std::hash::RandomState;
use trig_reader::{TrigFault, read_trig};

fn refused_by_lines(fault: ReadFault) -> FileFault
    ensures { (bytes : Text) → length bytes ≤ FILE_LIMIT → IsLineCauseOf bytes fault → IsTextFault nquads bytes result }
{
    match fault {
        ReadFault::NotUtf8 { line } => FileFault::Refused(Cause::NotUtf8 { line }),
        ReadFault::BadLine { line } => FileFault::Refused(Cause::BadLine { line }),
        ReadFault::RelativeIri { line } => FileFault::Refused(Cause::RelativeIri { line }),
        ReadFault::TooManyQuads => FileFault::Refused(Cause::TooManyQuads),
        ReadFault::NoMemory => FileFault::NoMemory,
    }
}

fn refused_by_trig(fault: TrigFault) -> FileFault
    ensures { (bytes : Text) (base : Option Text) → length bytes ≤ FILE_LIMIT → IsTriGCauseOf bytes base fault → IsTextFault (trig base) bytes result }
{
    match fault {
        TrigFault::NotUtf8 { line } => FileFault::Refused(Cause::NotUtf8 { line }),
        TrigFault::BadTrig { line } => FileFault::Refused(Cause::BadTrig { line }),
        TrigFault::UnknownPrefix { line } => FileFault::Refused(Cause::UnknownPrefix { line }),
        TrigFault::NoBase { line } => FileFault::Refused(Cause::NoBase { line }),
        TrigFault::TooManyQuads => FileFault::Refused(Cause::TooManyQuads),
        TrigFault::NoMemory => FileFault::NoMemory,
    }
}

// What the lines state that the reader was fed, where they are within the limit.
fn document_of_lines(reader: LineReader) -> Result<Parsed, FileFault>
    ensures stated { (bytes : Text) → length bytes ≤ FILE_LIMIT → StandsFor reader bytes → IfOk result (λ parsed. States nquads bytes parsed.labels (statements parsed)) }
    ensures fault { (bytes : Text) → length bytes ≤ FILE_LIMIT → StandsFor reader bytes → IfErr result (IsTextFault nquads bytes) }
{
    match reader.finish() {
        Ok(parsed) => Ok(parsed),
        Err(fault) => Err(refused_by_lines(fault)),
    }
}

// What the bytes of TriG state, which are within the limit.
fn document_of_trig(
    alloc: Global,
    keys: RandomState,
    bytes: &[u8],
    base: Option<&str>,
) -> Result<Parsed, FileFault>
    requires base { IfSome base (λ iri. IsBase iri.now) }
    ensures stated { length bytes.now ≤ FILE_LIMIT → IfOk result (λ parsed. States (trig (option_copied base.entry)) bytes.now parsed.labels (statements parsed)) }
    ensures fault { length bytes.now ≤ FILE_LIMIT → IfErr result (IsTextFault (trig (option_copied base.entry)) bytes.now) }
{
    match read_trig(alloc, keys, bytes, base) {
        Ok(parsed) => Ok(parsed),
        Err(fault) => Err(refused_by_trig(fault)),
    }
}

fn read_lines<S: Shelf>(
    alloc: Global,
    keys: RandomState,
    shelf: &mut S,
    file: &str,
) -> Result<Parsed, FileFault>
    ensures stated { IfOk result (λ parsed. IfSome (S.told shelf.old file.now) (λ told. States nquads told parsed.labels (statements parsed))) }
    ensures fault { IfErr result (IsFileFault (seen nquads S.told S.faults shelf.old shelf.new file.now)) }
    ensures told { (other : Text) → S.told shelf.new other ≡ S.told shelf.old other }
    ensures never_fell { (other : Text) → S.faults shelf.old other ≤ S.faults shelf.new other }
{
    let reader = feed_file(alloc, LineReader::new(alloc, keys), shelf, file)?;
    document_of_lines(reader)
}

// The sentences of TriG have no lines, so the whole file is gathered.
fn read_sentences<S: Shelf>(
    alloc: Global,
    keys: RandomState,
    shelf: &mut S,
    base: Option<&str>,
    file: &str,
) -> Result<Parsed, FileFault>
    requires base { IfSome base (λ iri. IsBase iri.now) }
    ensures stated { IfOk result (λ parsed. IfSome (S.told shelf.old file.now) (λ told. States (trig (option_copied base.entry)) told parsed.labels (statements parsed))) }
    ensures fault { IfErr result (IsFileFault (seen (trig (option_copied base.entry)) S.told S.faults shelf.old shelf.new file.now)) }
    ensures told { (other : Text) → S.told shelf.new other ≡ S.told shelf.old other }
    ensures never_fell { (other : Text) → S.faults shelf.old other ≤ S.faults shelf.new other }
{
    let bytes = feed_file(alloc, Vec::new(alloc), shelf, file)?;
    document_of_trig(alloc, keys, &bytes, base)
}

fn read_document<S: Shelf>(
    alloc: Global,
    keys: RandomState,
    shelf: &mut S,
    syntax: Syntax<'_>,
    file: &str,
) -> Result<Parsed, FileFault>
    requires base { HasGoodBase (syntax_of syntax) }
    ensures stated { IfOk result (λ parsed. IfSome (S.told shelf.old file.now) (λ told. States (syntax_of syntax.entry) told parsed.labels (statements parsed))) }
    ensures fault { IfErr result (IsFileFault (seen (syntax_of syntax.entry) S.told S.faults shelf.old shelf.new file.now)) }
    ensures told { (other : Text) → S.told shelf.new other ≡ S.told shelf.old other }
    ensures never_fell { (other : Text) → S.faults shelf.old other ≤ S.faults shelf.new other }
{
    match syntax {
        Syntax::NQuads => read_lines(alloc, keys, shelf, file),
        Syntax::TriG { base } => read_sentences(alloc, keys, shelf, base, file),
    }
}

fn dataset_of_document(alloc: Global, parsed: Parsed) -> Result<Dataset, FileFault>
    ensures accepted { (syntax : WordsSyntax) (bytes : Text) → States syntax bytes parsed.labels (statements parsed) → IfOk result (λ d. Accepts syntax bytes (content_of d)) }
    ensures memory { IfErr result (λ fault. fault ≡ FileFault.NoMemory) }
{
    let dataset = Dataset::build(alloc, parsed)?;
    // Its count tells that the dataset is valid.
    let _nodes = dataset.node_count();
    Ok(dataset)
}

// The dataset of a file. It is judged after it was read to its end.
pub(crate) fn read_dataset<S: Shelf>(
    alloc: Global,
    keys: RandomState,
    shelf: &mut S,
    syntax: Syntax<'_>,
    file: &str,
) -> Result<Dataset, FileFault>
    requires base { HasGoodBase (syntax_of syntax) }
    ensures accepted { IfOk result (λ d. IfSome (S.told shelf.old file.now) (λ told. Accepts (syntax_of syntax.entry) told (content_of d))) }
    ensures fault { IfErr result (IsFileFault (seen (syntax_of syntax.entry) S.told S.faults shelf.old shelf.new file.now)) }
    ensures told { (other : Text) → S.told shelf.new other ≡ S.told shelf.old other }
    ensures never_fell { (other : Text) → S.faults shelf.old other ≤ S.faults shelf.new other }
{
    let parsed = read_document(alloc, keys, shelf, syntax, file)?;
    dataset_of_document(alloc, parsed)
}
