//! A dataset with its nodes numbered anew.
ghost use Rattle.std.specs.Prelude.{◌≡◌, ℕ, ◌+◌, ◌<◌, ◌≤◌, ◌++◌, ◌∷◌, [], length, map, All, IfOk, OnOk, IsSome, IfSome};
ghost use Rattle.rdf_terms.specs.Lists.{In, AreDistinct, numbers_below};
ghost use Rattle.rdf_terms.specs.Terms.{IsValidStatement};
ghost use Rattle.rdf_terms.specs.Isomorphism.{relabel_term, relabel_graph_name, relabel_statement};
ghost use Rattle.rdf_terms.specs.Document.{IsDocument, IsInRange, dataset as dataset_of, statement, statements, term_at, graph_name_at};
ghost use Rattle.rdf_terms.specs.References.{term_of, graph_name_of, statement_of};
ghost use Rattle.rdf_terms.specs.CanonicalForm.{place_of};
ghost use Rattle.rdf_terms.specs.declared.term.Term.TheVariants.{Blank};
ghost use Rattle.rdf_terms.specs.declared.term.Label.TheVariants.{Anonymous};
ghost use Rattle.canonical_writer.specs.Determined.{CarriesLists, ListsNodes};
ghost use Rattle.other_output.specs.Numbering.{HasPlaces, moved, place_in};

use dataset_index::Dataset;
use id_issuer::Issuer;
use rdf_terms::{Draft, Label, MOST_QUADS, NoMemory, Quad, StatementRef, Term, TermRef, TermTable};
use std::alloc::Global;
use std::hash::RandomState;

// The node has the number of its place in the list.
fn moved_node(numbering: &Issuer, node: u32) -> u32
    requires { IsSome (place_of numbering.now.list node) }
    ensures { result ≡ place_in numbering.now.list node }
{
    numbering.id_of(node).unwrap()
}

fn moved_term<'a>(numbering: &Issuer, term: &'a Term) -> TermRef<'a>
    requires { (n : ℕ) → term.now ≡ Blank n → IsSome (place_of numbering.now.list n) }
    ensures { term_of result ≡ relabel_term (place_in numbering.now.list) term.now }
{
    match term {
        Term::Blank(node) => TermRef::Blank(moved_node(numbering, *node)),
        other => other.as_ref(),
    }
}

// The term with this number.
fn moved_at<'a>(numbering: &Issuer, terms: &'a TermTable, number: u32) -> TermRef<'a>
    requires in_range { number < length terms.now }
    requires places { HasPlaces terms.now numbering.now.list }
    ensures { term_of result ≡ relabel_term (place_in numbering.now.list) (term_at terms.now number) }
{
    moved_term(numbering, terms.get(number).unwrap())
}

fn moved_graph_name<'a>(
    numbering: &Issuer,
    terms: &'a TermTable,
    number: Option<u32>,
) -> Option<TermRef<'a>>
    requires in_range { IfSome number (λ n. n < length terms.now) }
    requires places { HasPlaces terms.now numbering.now.list }
    ensures { graph_name_of result ≡ relabel_graph_name (place_in numbering.now.list) (graph_name_at terms.now number) }
{
    match number {
        Some(number) => Some(moved_at(numbering, terms, number)),
        None => None,
    }
}

fn moved_quad<'a>(numbering: &Issuer, terms: &'a TermTable, quad: Quad) -> StatementRef<'a>
    requires in_range { IsInRange terms.now quad }
    requires places { HasPlaces terms.now numbering.now.list }
    ensures { statement_of result ≡ moved terms.now numbering.now.list quad }
{
    StatementRef {
        subject: moved_at(numbering, terms, quad.s),
        predicate: moved_at(numbering, terms, quad.p),
        object: moved_at(numbering, terms, quad.o),
        graph_name: moved_graph_name(numbering, terms, quad.g),
    }
}

// Adds a quad that is not there yet.
fn add_quad(draft: &mut Draft, quad: StatementRef<'_>) -> Result<(), NoMemory>
    requires valid { IsValidStatement (length draft.old.labels) (statement_of quad) }
    requires room { length draft.old.quads < MOST_QUADS }
    requires new { ¬ (In (statement_of quad) (statements draft.old)) }
    ensures statements { OnOk result (statements draft.new ≡ statements draft.old ++ statement_of quad.entry ∷ []) }
    ensures labels { draft.new.labels ≡ draft.old.labels }
{
    draft.add_ref(quad)?;
    Ok(())
}

// Adds the quads, moved.
fn add_quads(
    draft: &mut Draft,
    numbering: &Issuer,
    terms: &TermTable,
    quads: &[Quad],
) -> Result<(), NoMemory>
    requires in_range { All (IsInRange terms.now) quads.now }
    requires places { HasPlaces terms.now numbering.now.list }
    requires valid { All (λ q. IsValidStatement (length draft.old.labels) (moved terms.now numbering.now.list q)) quads.now }
    requires none { statements draft.old ≡ [] }
    requires room { length quads.now ≤ MOST_QUADS }
    requires distinct { AreDistinct (map (moved terms.now numbering.now.list) quads.now) }
    ensures statements { OnOk result (statements draft.new ≡ map (moved terms.now numbering.now.list) quads.now) }
    ensures labels { draft.new.labels ≡ draft.old.labels }
{
    for quad in quads {
        let quad = moved_quad(numbering, terms, *quad);
        add_quad(draft, quad)?;
    }
    Ok(())
}

fn add_node(draft: &mut Draft, node: u32) -> Result<(), NoMemory>
    requires room { node < u32.MAX }
    requires labels { draft.old.labels ≡ map Anonymous (numbers_below node) }
    ensures labels { OnOk result (draft.new.labels ≡ draft.old.labels ++ Anonymous node ∷ []) }
    ensures statements { statements draft.new ≡ statements draft.old }
{
    draft.node(Label::Anonymous(node))?;
    Ok(())
}

// So many nodes, without labels.
fn add_nodes(draft: &mut Draft, count: u32) -> Result<(), NoMemory>
    requires { draft.old.labels ≡ [] }
    ensures labels { OnOk result (draft.new.labels ≡ map Anonymous (numbers_below count)) }
    ensures statements { statements draft.new ≡ statements draft.old }
{
    for node in 0..count {
        add_node(draft, node)?;
    }
    Ok(())
}

// The quads of the dataset, moved, over as many nodes.
fn moved_draft(
    alloc: Global,
    dataset: &Dataset,
    order: &Issuer,
    keys: RandomState,
) -> Result<Draft, NoMemory>
    requires order { ListsNodes (length dataset.now.labels) order.now.list }
    requires document { IsDocument dataset.now }
    ensures labels { IfOk result (λ draft. draft.labels ≡ map Anonymous (numbers_below (length dataset.now.labels))) }
    ensures statements { IfOk result (λ draft. statements draft ≡ map (moved dataset.now.terms order.now.list) dataset.now.quads) }
{
    let terms = dataset.terms();
    let quads = dataset.quads();
    let mut draft = Draft::with_capacity(alloc, keys, quads.len(), terms.len() as usize)?;
    add_nodes(&mut draft, dataset.node_count())?;
    add_quads(&mut draft, order, terms, quads)?;
    Ok(draft)
}

// The dataset with its nodes numbered by their places in a list of all of them.
pub(crate) fn renumbered(
    alloc: Global,
    dataset: &Dataset,
    order: &Issuer,
    keys: RandomState,
) -> Result<Dataset, NoMemory>
    requires { ListsNodes (length dataset.now.labels) order.now.list }
    ensures { IfOk result (λ d. CarriesLists (dataset_of dataset.now) (dataset_of d) order.now.list (numbers_below (length dataset.now.labels))) }
{
    let _nodes = dataset.node_count();
    let draft = moved_draft(alloc, dataset, order, keys)?;
    let parsed = draft.finish()?;
    let built = Dataset::build(alloc, parsed)?;
    Ok(built)
}
