//! What a draft and a table make of terms of their own, and of a node that stands in no quad.

ghost use Rattle.std.specs.Prelude.{◌≡◌, ◌+◌, ◌<◌, ◌≤◌, None, length, IfOk, OnOk};
ghost use Rattle.rdf_terms.specs.Terms.{IsIri, IsValidTerm, IsValidStatement};

use rdf_terms::{Draft, Label, NoMemory, Parsed, Term, TermTable, TermText};
use std::alloc::Global;
use std::hash::RandomState;
use std::test::Fail;

fn iri(alloc: Global) -> Result<Term, NoMemory>
    ensures kind { IfOk result IsIri }
    ensures valid { IfOk result (IsValidTerm 0) }
{
    Ok(Term::Iri(TermText::copy(alloc, "e:a")?))
}

// Adds a quad of the default graph, and says whether it is new.
fn add(draft: &mut Draft, subject: Term, predicate: Term, object: Term) -> Result<bool, Fail>
    requires { IsValidStatement (length draft.old.labels) (record { subject = subject; predicate = predicate; object = object; graph_name = None }) }
{
    if draft.quad_count() > 1000 {
        return Err(Fail::from("there are too many quads for this test"));
    }
    Ok(draft.add(subject, predicate, object, None)?)
}

// Adds the quad that has the IRI in each place.
#[tactic(auto, using(crate::proofs::ValidQuads::of_iris))]
fn add_iris(draft: &mut Draft, alloc: Global) -> Result<bool, Fail> {
    let subject = iri(alloc)?;
    let predicate = iri(alloc)?;
    let object = iri(alloc)?;
    add(draft, subject, predicate, object)
}

// Adds a quad whose subject is the node.
#[tactic(auto, using(crate::proofs::ValidQuads::behind_subject))]
fn add_node(draft: &mut Draft, alloc: Global, node: u32) -> Result<bool, Fail>
    requires { node < length draft.old.labels }
{
    let predicate = iri(alloc)?;
    let object = iri(alloc)?;
    add(draft, Term::Blank(node), predicate, object)
}

// Whether a quad is new at first and again, and how many quads there are then.
fn add_twice(alloc: Global, keys: RandomState) -> Result<(bool, bool, u64), Fail> {
    let mut draft = Draft::new(alloc, keys);
    let first = add_iris(&mut draft, alloc)?;
    let again = add_iris(&mut draft, alloc)?;
    Ok((first, again, draft.quad_count()))
}

#[test]
fn a_quad_is_new_once(rt: HostRuntime) -> Result<(), Fail> {
    assert_eq!(rt;
        add_twice(rt.alloc(), RandomState::new(&rt)?)?,
        (true, false, 1)
    );
    Ok(())
}

// The node of this name.
#[tactic(auto, using(crate::proofs::ValidQuads::is_within, crate::proofs::ValidQuads::is_one_longer))]
fn node_of(draft: &mut Draft, alloc: Global, name: &str) -> Result<u32, Fail>
    requires { length draft.old.labels < 10 }
    ensures known { IfOk result (λ node. node < length draft.new.labels) }
    ensures one_more { OnOk result (length draft.new.labels ≤ length draft.old.labels + 1) }
{
    Ok(draft.node(Label::Named(TermText::copy(alloc, name)?))?)
}

// The document in which only the second of two nodes stands in a quad.
fn second_of_two(alloc: Global, keys: RandomState) -> Result<Parsed, Fail> {
    let mut draft = Draft::new(alloc, keys);
    node_of(&mut draft, alloc, "a")?;
    let second = node_of(&mut draft, alloc, "b")?;
    add_node(&mut draft, alloc, second)?;
    Ok(draft.finish()?)
}

fn is_named(label: Option<&Label>, name: &str) -> bool {
    match label {
        Some(Label::Named(text)) => text.as_str() == name,
        _ => false,
    }
}

// The node that is the subject of the first quad.
fn first_subject(parsed: &Parsed) -> Option<u32> {
    let quad = parsed.quads().first()?;
    match parsed.terms().get(quad.s) {
        Some(Term::Blank(node)) => Some(*node),
        _ => None,
    }
}

// Whether the document has one node, which has this name, and its number is 0.
fn has_one_node(parsed: &Parsed, name: &str) -> bool {
    let labels = parsed.labels();
    labels.len() == 1 && is_named(labels.first(), name) && first_subject(parsed) == Some(0)
}

fn keeps_the_second(alloc: Global, keys: RandomState) -> Result<bool, Fail> {
    let parsed = second_of_two(alloc, keys)?;
    Ok(has_one_node(&parsed, "b"))
}

#[test]
fn a_node_in_no_quad_is_dropped(rt: HostRuntime) -> Result<(), Fail> {
    assert!(rt; keeps_the_second(rt.alloc(), RandomState::new(&rt)?)?);
    Ok(())
}

fn intern(terms: &mut TermTable, term: Term) -> Result<u32, Fail> {
    if terms.len() == u32::MAX {
        return Err(Fail::from("the table is full"));
    }
    Ok(terms.intern(term)?)
}

fn numbers_of_three(alloc: Global, keys: RandomState) -> Result<(u32, u32, u32), Fail> {
    let mut terms = TermTable::new(alloc, keys);
    let first = intern(&mut terms, iri(alloc)?)?;
    let second = intern(&mut terms, Term::Blank(0))?;
    let again = intern(&mut terms, iri(alloc)?)?;
    Ok((first, second, again))
}

#[test]
fn a_term_keeps_its_number(rt: HostRuntime) -> Result<(), Fail> {
    assert_eq!(rt;
        numbers_of_three(rt.alloc(), RandomState::new(&rt)?)?,
        (0, 1, 0)
    );
    Ok(())
}
