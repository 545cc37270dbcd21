//! The nodes that the quads of a call's node mention.

ghost use Rattle.std.specs.Prelude.{◌≡◌, ◌<◌, ℕ, ◌++◌, map, length, IfOk, OnOk};
ghost use Rattle.rdf_terms.specs.Document.{IsDocument, dataset as dataset_of, term_at};
ghost use Rattle.rdf_terms.specs.declared.term.Term.TheVariants.{Blank};
ghost use Rattle.canon_model.specs.Meaning.{meaning};
ghost use Rattle.canon_model.specs.Groups.{entry_of_term, iri_text, related_entries};
ghost use Rattle.related_hash.specs.Entries.{entries_at, related_entry};

use crate::call::Call;
use crate::entry::Entry;
use crate::hashing::related;
use canon_model::Position;
use dataset_index::Dataset;
use rdf_terms::{NoMemory, Term};
use std::alloc::Global;

// The IRI that a predicate is.
fn iri_of(term: &Term) -> &str
    ensures { result.now ≡ iri_text term.now }
{
    match term {
        Term::Iri(text) => text.as_str(),
        Term::Blank(_) | Term::Literal(_) => "",
    }
}

fn term_of_number(dataset: &Dataset, number: u32) -> &Term
    requires document { IsDocument dataset.now }
    requires number { number < length dataset.now.terms }
    ensures term { result.now ≡ term_at dataset.now.terms number }
    ensures known { (m : ℕ) → result.now ≡ Blank m → m < length dataset.now.labels }
{
    let Some(term) = dataset.terms().get(number) else {
        unreachable!()
    };
    term
}

// Adds the entry of a term that is a node other than the call's own.
fn add_term(
    call: &Call<'_>,
    predicate: &str,
    position: Position,
    term: &Term,
    entries: &mut Vec<Entry>,
) -> Result<(), NoMemory>
    requires known { (m : ℕ) → term.now ≡ Blank m → m < length call.now.dataset.now.labels }
    ensures { OnOk result (map related_entry entries.new.items ≡ map related_entry entries.old.items ++ entry_of_term (meaning call.now.profile) (dataset_of call.now.dataset.now) call.now.canon.now.list call.now.issuer.now.list call.now.node predicate.now position term.now) }
{
    match term {
        Term::Blank(other) => {
            if *other == call.node {
                return Ok(());
            }
            let first = &call.first[*other as usize];
            let hash = related(
                first,
                call.canon,
                call.issuer,
                *other,
                predicate,
                position,
                call.profile,
            );
            entries.push(Entry { hash, node: *other })?;
            Ok(())
        }
        Term::Iri(_) | Term::Literal(_) => Ok(()),
    }
}

// Adds the entries of the quad in this place.
fn add_quad(call: &Call<'_>, place: u32, entries: &mut Vec<Entry>) -> Result<(), NoMemory>
    requires document { IsDocument call.now.dataset.now }
    requires place { place < length call.now.dataset.now.quads }
    ensures { OnOk result (map related_entry entries.new.items ≡ map related_entry entries.old.items ++ entries_at (meaning call.now.profile) call.now.dataset.now call.now.canon.now.list call.now.issuer.now.list call.now.node place) }
{
    let quads = call.dataset.quads();
    let quad = quads[place as usize];
    let property = term_of_number(call.dataset, quad.p);
    let predicate = iri_of(property);
    let subject = term_of_number(call.dataset, quad.s);
    add_term(call, predicate, Position::Subject, subject, entries)?;
    let object = term_of_number(call.dataset, quad.o);
    add_term(call, predicate, Position::Object, object, entries)?;
    let Some(number) = quad.g else {
        return Ok(());
    };
    let graph_name = term_of_number(call.dataset, number);
    add_term(call, predicate, Position::Graph, graph_name, entries)?;
    Ok(())
}

// An entry for each time that a quad of the call's node mentions another node (RDF Dataset
// Canonicalization, section 4.8, step 3).
pub(crate) fn entries_of(alloc: Global, call: &Call<'_>) -> Result<Vec<Entry>, NoMemory>
    ensures { IfOk result (λ entries. map related_entry entries.items ≡ related_entries (meaning call.now.profile) (dataset_of call.now.dataset.now) call.now.canon.now.list call.now.issuer.now.list call.now.node) }
{
    let _nodes = call.dataset.node_count();
    let places = call.dataset.quads_of(call.node);
    let mut entries = Vec::new(alloc);
    for place in places {
        add_quad(call, *place, &mut entries)?;
    }
    Ok(entries)
}
