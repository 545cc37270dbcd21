//! The quads of a document, and where the next term stands.
ghost use Rattle.std.specs.Prelude.{◌≡◌, ◌<◌, length, IfOk, OnOk, Some, None};
ghost use Rattle.rdf_terms.specs.Terms.{IsValidTerm};
ghost use Rattle.rdf_terms.specs.Document.{Extends};
ghost use Rattle.rdf_terms.specs.References.{term_of};
ghost use Rattle.rdf_terms.specs.declared.term.Term.{Term as TermOf};
ghost use Rattle.rdf_terms.specs.declared.term.Term.TheVariants.{Blank};
ghost use Rattle.trig_terms.specs.Meaning.{Told, Said, Place as PlaceOf, nothing_told, put, begin_item, leave, enter, next_cell, next_node, put_next, meet, meet_label, meet_anonymous, begin_properties, begin_items, turn_to, next_verb_in, end_items_in, turn_to_graph, graph_of, tell_mark};
ghost use Rattle.trig_terms.specs.Meaning.Place.{AtSubject as SubjectOf, AtPrefixIri as PrefixIriOf};
ghost use Rattle.trig_builder.specs.Numbered.{IsTermOf};
ghost use Rattle.trig_builder.specs.Telling.{view_of, IsSound, IsSoundPlace, IsPlace, Tells};
ghost use Rattle.trig_builder.specs.declared.place.Place.TheVariants.{AtSubject, AtVerb, AtObject, AtItem, InItems};

use crate::place::Place;
use crate::say::{is_iri, is_name, mention, open, say_in};
use rdf_terms::{Draft, LabelRef, NoMemory, Term, TermRef};
use std::alloc::Global;
use std::hash::RandomState;
use std::mem;
use trig_lexer::Kind;

const RDF_FIRST: &str = "http://www.w3.org/1999/02/22-rdf-syntax-ns#first";

const RDF_REST: &str = "http://www.w3.org/1999/02/22-rdf-syntax-ns#rest";

const RDF_TYPE: &str = "http://www.w3.org/1999/02/22-rdf-syntax-ns#type";

const RDF_NIL: &str = "http://www.w3.org/1999/02/22-rdf-syntax-ns#nil";

// What has been told: the quads, and where the next term stands.
#[derive(Drop)]
pub(crate) struct Telling {
    alloc: Global,
    draft: Draft,
    place: Place,
    // The places that have been begun and not ended, the innermost last.
    outer: Vec<Place>,
    graph_name: Option<Term>,
    opened: u32,
}

impl Telling {
    pub(crate) fn new(alloc: Global, keys: RandomState) -> Self
        ensures sound { IsSound (view_of result) }
        ensures tells { Tells (view_of result) nothing_told }
    {
        Telling {
            alloc,
            draft: Draft::new(alloc, keys),
            place: Place::AtSubject,
            outer: Vec::new(alloc),
            graph_name: None,
            opened: 0,
        }
    }

    // A term that is no literal is a subject, or the label of a graph.
    fn put_subject(&mut self, term: TermRef<'_>) -> Result<(), NoMemory>
        requires sound { IsSound (view_of self.old) }
        requires here { self.old.place ≡ AtSubject }
        requires valid { IsValidTerm (length self.old.draft.labels) (term_of term) }
        ensures sound { OnOk result (IsSound (view_of self.new)) }
        ensures tells { OnOk result ((t : Told) (said : Said) → IsTermOf self.old.draft.labels said (term_of term.entry) → Tells (view_of self.old) t → Tells (view_of self.new) (put said t)) }
        ensures labels { self.new.draft.labels ≡ self.old.draft.labels }
    {
        if is_name(term) {
            self.place = Place::AtVerb(term.to_term(self.alloc)?);
        }
        Ok(())
    }

    // An IRI is a verb of the subject.
    fn put_verb(&mut self, term: TermRef<'_>) -> Result<(), NoMemory>
        requires sound { IsSound (view_of self.old) }
        requires here { (subject : TermOf) × (self.old.place ≡ AtVerb subject) }
        requires valid { IsValidTerm (length self.old.draft.labels) (term_of term) }
        ensures sound { OnOk result (IsSound (view_of self.new)) }
        ensures tells { OnOk result ((t : Told) (said : Said) → IsTermOf self.old.draft.labels said (term_of term.entry) → Tells (view_of self.old) t → Tells (view_of self.new) (put said t)) }
        ensures labels { self.new.draft.labels ≡ self.old.draft.labels }
    {
        if is_iri(term) {
            let verb = term.to_term(self.alloc)?;
            let behind = mem::replace(&mut self.place, Place::AtSubject);
            self.place = behind.with_verb(verb);
        }
        Ok(())
    }

    // The term is an object of the subject and the verb.
    fn put_object(&mut self, term: TermRef<'_>) -> Result<(), NoMemory>
        requires sound { IsSound (view_of self.old) }
        requires here { (subject verb : TermOf) × (self.old.place ≡ AtObject subject verb) }
        requires valid { IsValidTerm (length self.old.draft.labels) (term_of term) }
        ensures sound { OnOk result (IsSound (view_of self.new)) }
        ensures tells { OnOk result ((t : Told) (said : Said) → IsTermOf self.old.draft.labels said (term_of term.entry) → Tells (view_of self.old) t → Tells (view_of self.new) (put said t)) }
        ensures labels { self.new.draft.labels ≡ self.old.draft.labels }
    {
        if let Place::AtObject(subject, verb) = &self.place {
            say_in(
                &mut self.draft,
                &self.graph_name,
                subject.as_ref(),
                verb.as_ref(),
                term,
            )?;
        }
        Ok(())
    }

    // The term is the item of the cell.
    fn put_item(&mut self, cell: u32, term: TermRef<'_>) -> Result<(), NoMemory>
        requires sound { IsSound (view_of self.old) }
        requires here { self.old.place ≡ AtItem cell }
        requires valid { IsValidTerm (length self.old.draft.labels) (term_of term) }
        ensures sound { OnOk result (IsSound (view_of self.new)) }
        ensures tells { OnOk result ((t : Told) (said : Said) → IsTermOf self.old.draft.labels said (term_of term.entry) → Tells (view_of self.old) t → Tells (view_of self.new) (put said t)) }
        ensures labels { self.new.draft.labels ≡ self.old.draft.labels }
    {
        say_in(
            &mut self.draft,
            &self.graph_name,
            TermRef::Blank(cell),
            TermRef::Iri(RDF_FIRST),
            term,
        )?;
        self.place = Place::InItems(Some(cell));
        Ok(())
    }

    // The term stands in the place.
    pub(crate) fn put(&mut self, term: TermRef<'_>) -> Result<(), NoMemory>
        requires sound { IsSound (view_of self.old) }
        requires valid { IsValidTerm (length self.old.draft.labels) (term_of term) }
        ensures sound { OnOk result (IsSound (view_of self.new)) }
        ensures tells { OnOk result ((t : Told) (said : Said) → IsTermOf self.old.draft.labels said (term_of term.entry) → Tells (view_of self.old) t → Tells (view_of self.new) (put said t)) }
        ensures labels { self.new.draft.labels ≡ self.old.draft.labels }
    {
        match self.place {
            Place::AtSubject => self.put_subject(term),
            Place::AtVerb(_) => self.put_verb(term),
            Place::AtObject(_, _) => self.put_object(term),
            Place::AtItem(cell) => self.put_item(cell, term),
            _ => Ok(()),
        }
    }

    // The place that was begun is ended.
    fn leave(&mut self)
        requires { IsSound (view_of self.old) }
        ensures sound { IsSound (view_of self.new) }
        ensures tells { (t : Told) → Tells (view_of self.old) t → Tells (view_of self.new) (leave t) }
        ensures labels { self.new.draft.labels ≡ self.old.draft.labels }
    {
        let place = self.outer.pop();
        self.place = place.unwrap_or(Place::AtSubject);
    }

    // A place is begun inside the one that is there.
    fn enter(&mut self, place: Place) -> Result<(), NoMemory>
        requires sound { IsSound (view_of self.old) }
        requires place { IsSoundPlace (length self.old.draft.labels) place }
        ensures sound { OnOk result (IsSound (view_of self.new)) }
        ensures tells { OnOk result ((t : Told) (at : PlaceOf) → IsPlace self.old.draft.labels place at → Tells (view_of self.old) t → Tells (view_of self.new) (enter at t)) }
        ensures labels { self.new.draft.labels ≡ self.old.draft.labels }
    {
        let outer = mem::replace(&mut self.place, place);
        self.outer.push(outer)?;
        Ok(())
    }

    // The first cell of a collection is what the collection stands for.
    fn first_cell(&mut self, node: u32) -> Result<(), NoMemory>
        requires sound { IsSound (view_of self.old) }
        requires node { node < length self.old.draft.labels }
        ensures sound { OnOk result (IsSound (view_of self.new)) }
        ensures tells { OnOk result ((t : Told) (cell : Said) → IsTermOf self.old.draft.labels cell (Blank node) → Tells (view_of self.old) t → Tells (view_of self.new) (next_cell None cell t)) }
        ensures labels { OnOk result (self.new.draft.labels ≡ self.old.draft.labels) }
    {
        self.leave();
        self.put(TermRef::Blank(node))?;
        self.enter(Place::AtItem(node))?;
        Ok(())
    }

    // Each other cell is the rest of the one before.
    fn later_cell(&mut self, before: u32, node: u32) -> Result<(), NoMemory>
        requires sound { IsSound (view_of self.old) }
        requires before { before < length self.old.draft.labels }
        requires node { node < length self.old.draft.labels }
        ensures sound { OnOk result (IsSound (view_of self.new)) }
        ensures tells { OnOk result ((t : Told) (last cell : Said) → IsTermOf self.old.draft.labels last (Blank before) → IsTermOf self.old.draft.labels cell (Blank node) → Tells (view_of self.old) t → Tells (view_of self.new) (next_cell (Some last) cell t)) }
        ensures labels { OnOk result (self.new.draft.labels ≡ self.old.draft.labels) }
    {
        say_in(
            &mut self.draft,
            &self.graph_name,
            TermRef::Blank(before),
            TermRef::Iri(RDF_REST),
            TermRef::Blank(node),
        )?;
        self.place = Place::AtItem(node);
        Ok(())
    }

    // The cell of an item is opened.
    fn next_cell(&mut self, last: Option<u32>) -> Result<(), NoMemory>
        requires sound { IsSound (view_of self.old) }
        requires here { self.old.place ≡ InItems last }
        ensures sound { OnOk result (IsSound (view_of self.new)) }
        ensures tells { OnOk result ((t : Told) → Tells (view_of self.old) t → Tells (view_of self.new) (begin_item t)) }
        ensures labels { OnOk result (Extends self.old.draft.labels self.new.draft.labels) }
    {
        let node = open(&mut self.draft, &mut self.opened)?;
        match last {
            None => self.first_cell(node)?,
            Some(before) => self.later_cell(before, node)?,
        }
        Ok(())
    }

    // In a collection the cell of an item is opened just before the item.
    pub(crate) fn begin_item(&mut self) -> Result<(), NoMemory>
        requires sound { IsSound (view_of self.old) }
        ensures sound { OnOk result (IsSound (view_of self.new)) }
        ensures tells { OnOk result ((t : Told) → Tells (view_of self.old) t → Tells (view_of self.new) (begin_item t)) }
        ensures labels { OnOk result (Extends self.old.draft.labels self.new.draft.labels) }
    {
        match self.place {
            Place::InItems(last) => self.next_cell(last),
            _ => Ok(()),
        }
    }

    // An IRI or a literal is met.
    pub(crate) fn meet(&mut self, term: TermRef<'_>) -> Result<(), NoMemory>
        requires sound { IsSound (view_of self.old) }
        requires valid { IsValidTerm (length self.old.draft.labels) (term_of term) }
        ensures sound { OnOk result (IsSound (view_of self.new)) }
        ensures tells { OnOk result ((t : Told) (said : Said) → IsTermOf self.old.draft.labels said (term_of term.entry) → Tells (view_of self.old) t → Tells (view_of self.new) (meet said t)) }
    {
        self.begin_item()?;
        self.put(term)?;
        Ok(())
    }

    // A label is met: it names one blank node in the whole document.
    pub(crate) fn meet_label(&mut self, name: &str) -> Result<(), NoMemory>
        requires { IsSound (view_of self.old) }
        ensures sound { OnOk result (IsSound (view_of self.new)) }
        ensures tells { OnOk result ((t : Told) → Tells (view_of self.old) t → Tells (view_of self.new) (meet_label name.now t)) }
    {
        self.begin_item()?;
        let node = mention(&mut self.draft, LabelRef::Named(name))?;
        self.put(TermRef::Blank(node))?;
        Ok(())
    }

    // A blank node is opened, and stands in the place.
    fn put_next(&mut self) -> Result<u32, NoMemory>
        requires { IsSound (view_of self.old) }
        ensures sound { OnOk result (IsSound (view_of self.new)) }
        ensures node { IfOk result (λ node. node < length self.new.draft.labels) }
        ensures is { IfOk result (λ node. (t : Told) → Tells (view_of self.old) t → IsTermOf self.new.draft.labels (next_node t) (Blank node)) }
        ensures tells { OnOk result ((t : Told) → Tells (view_of self.old) t → Tells (view_of self.new) (put_next t)) }
    {
        let node = open(&mut self.draft, &mut self.opened)?;
        self.put(TermRef::Blank(node))?;
        Ok(node)
    }

    pub(crate) fn meet_anonymous(&mut self) -> Result<(), NoMemory>
        requires { IsSound (view_of self.old) }
        ensures sound { OnOk result (IsSound (view_of self.new)) }
        ensures tells { OnOk result ((t : Told) → Tells (view_of self.old) t → Tells (view_of self.new) (meet_anonymous t)) }
    {
        self.begin_item()?;
        self.put_next()?;
        Ok(())
    }

    // `[` opens a blank node, whose verbs stand inside.
    fn begin_properties(&mut self) -> Result<(), NoMemory>
        requires { IsSound (view_of self.old) }
        ensures sound { OnOk result (IsSound (view_of self.new)) }
        ensures tells { OnOk result ((t : Told) → Tells (view_of self.old) t → Tells (view_of self.new) (begin_properties t)) }
    {
        self.begin_item()?;
        let node = self.put_next()?;
        self.enter(Place::AtVerb(Term::Blank(node)))?;
        Ok(())
    }

    // `(`
    fn begin_items(&mut self) -> Result<(), NoMemory>
        requires { IsSound (view_of self.old) }
        ensures sound { OnOk result (IsSound (view_of self.new)) }
        ensures tells { OnOk result ((t : Told) → Tells (view_of self.old) t → Tells (view_of self.new) (begin_items t)) }
    {
        self.begin_item()?;
        self.enter(Place::InItems(None))?;
        Ok(())
    }

    // All that was begun is ended, and the next term stands here.
    fn turn_to(&mut self, place: Place)
        requires sound { IsSound (view_of self.old) }
        requires place { IsSoundPlace (length self.old.draft.labels) place }
        ensures sound { IsSound (view_of self.new) }
        ensures tells { (t : Told) (at : PlaceOf) → IsPlace self.old.draft.labels place at → Tells (view_of self.old) t → Tells (view_of self.new) (turn_to at t) }
    {
        self.outer.clear();
        self.place = place;
    }

    // The subject of further triples stands next.
    pub(crate) fn turn_to_subject(&mut self)
        requires { IsSound (view_of self.old) }
        ensures sound { IsSound (view_of self.new) }
        ensures tells { (t : Told) → Tells (view_of self.old) t → Tells (view_of self.new) (turn_to SubjectOf t) }
    {
        self.turn_to(Place::AtSubject);
    }

    // The IRI that a directive sets a prefix to stands next.
    pub(crate) fn turn_to_prefix_iri(&mut self)
        requires { IsSound (view_of self.old) }
        ensures sound { IsSound (view_of self.new) }
        ensures tells { (t : Told) → Tells (view_of self.old) t → Tells (view_of self.new) (turn_to PrefixIriOf t) }
    {
        self.turn_to(Place::AtPrefixIri);
    }

    // `;`: the next verb has the same subject.
    fn next_verb(&mut self)
        requires { IsSound (view_of self.old) }
        ensures sound { IsSound (view_of self.new) }
        ensures tells { (t : Told) → Tells (view_of self.old) t → Tells (view_of self.new) (next_verb_in t.place t) }
    {
        let behind = mem::replace(&mut self.place, Place::AtSubject);
        self.place = behind.without_verb();
    }

    // A collection without items stands for `rdf:nil`.
    fn end_empty(&mut self) -> Result<(), NoMemory>
        requires sound { IsSound (view_of self.old) }
        requires here { self.old.place ≡ InItems None }
        ensures sound { OnOk result (IsSound (view_of self.new)) }
        ensures tells { OnOk result ((t : Told) → Tells (view_of self.old) t → Tells (view_of self.new) (end_items_in t.place t)) }
    {
        self.leave();
        self.put(TermRef::Iri(RDF_NIL))?;
        Ok(())
    }

    // The rest of the last cell is `rdf:nil`.
    fn end_cells(&mut self, cell: u32) -> Result<(), NoMemory>
        requires sound { IsSound (view_of self.old) }
        requires here { self.old.place ≡ InItems (Some cell) }
        ensures sound { OnOk result (IsSound (view_of self.new)) }
        ensures tells { OnOk result ((t : Told) → Tells (view_of self.old) t → Tells (view_of self.new) (end_items_in t.place t)) }
    {
        say_in(
            &mut self.draft,
            &self.graph_name,
            TermRef::Blank(cell),
            TermRef::Iri(RDF_REST),
            TermRef::Iri(RDF_NIL),
        )?;
        self.leave();
        Ok(())
    }

    // `)`
    fn end_items(&mut self) -> Result<(), NoMemory>
        requires { IsSound (view_of self.old) }
        ensures sound { OnOk result (IsSound (view_of self.new)) }
        ensures tells { OnOk result ((t : Told) → Tells (view_of self.old) t → Tells (view_of self.new) (end_items_in t.place t)) }
    {
        match self.place {
            Place::InItems(None) => self.end_empty(),
            Place::InItems(Some(cell)) => self.end_cells(cell),
            _ => Ok(()),
        }
    }

    // `{`: what stood before it, if anything, is the graph's label.
    fn begin_graph(&mut self)
        requires { IsSound (view_of self.old) }
        ensures sound { IsSound (view_of self.new) }
        ensures tells { (t : Told) → Tells (view_of self.old) t → Tells (view_of self.new) (turn_to_graph (graph_of t.place) t) }
    {
        let label = mem::replace(&mut self.place, Place::AtSubject);
        self.graph_name = label.graph_name();
        self.outer.clear();
    }

    // `}`
    fn end_graph(&mut self)
        requires { IsSound (view_of self.old) }
        ensures sound { IsSound (view_of self.new) }
        ensures tells { (t : Told) → Tells (view_of self.old) t → Tells (view_of self.new) (turn_to_graph None t) }
    {
        self.graph_name = None;
        self.turn_to(Place::AtSubject);
    }

    // A word or a mark is met.
    pub(crate) fn tell_mark(&mut self, kind: Kind) -> Result<(), NoMemory>
        requires { IsSound (view_of self.old) }
        ensures sound { OnOk result (IsSound (view_of self.new)) }
        ensures tells { OnOk result ((t : Told) → Tells (view_of self.old) t → Tells (view_of self.new) (tell_mark kind t)) }
    {
        match kind {
            Kind::AtPrefix | Kind::WordPrefix => self.turn_to(Place::AtPrefixName),
            Kind::AtBase | Kind::WordBase => self.turn_to(Place::AtBaseIri),
            Kind::WordA => self.meet(TermRef::Iri(RDF_TYPE))?,
            Kind::Dot => self.turn_to(Place::AtSubject),
            Kind::Semicolon => self.next_verb(),
            Kind::LeftBrace => self.begin_graph(),
            Kind::RightBrace => self.end_graph(),
            Kind::LeftBracket => self.begin_properties()?,
            Kind::RightBracket => self.leave(),
            Kind::LeftParen => self.begin_items()?,
            Kind::RightParen => self.end_items()?,
            _ => {}
        }
        Ok(())
    }

    // Where the next term stands.
    pub(crate) fn place(&self) -> &Place
        ensures { result.now ≡ self.now.place }
    {
        &self.place
    }

    // The quads that were said.
    pub(crate) fn into_draft(self) -> Draft
        ensures { result ≡ self.draft }
    {
        let Telling { draft, .. } = self;
        draft
    }
}
