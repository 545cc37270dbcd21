//! An index of the triples of a graph by what stands in two of their places.
ghost use Rattle.std.specs.Prelude.{◌≡◌, ◌↔◌, ℕ, ◌<◌, ◌≤◌, true, [], IsTrue, length, slice_index, slice_set, All, IfOk};
ghost use Rattle.map_search.specs.Pattern.{end_at};
ghost use Rattle.map_search.specs.Marks.{mark_at};
ghost use Rattle.map_search.specs.Table.{entry_at};
ghost use Rattle.map_search.specs.Index.{entry_for, quad_at, IsTableOf};

use crate::rows::{Condition, End, Lookup};
use crate::table::{Entry, Table};
use rdf_terms::{MOST_QUADS, NoMemory, Quad};
use std::alloc::Global;
use std::marker::Model;

// What is looked for.
#[derive(Clone, Copy, Debug, PartialEq, Eq)]
pub(crate) enum Asked {
    AsSubject,
    AsObject,
    AsBoth,
    AsSomeSubject,
    AsSomeObject,
}

fn entry_of(asked: Asked, q: Quad, place: u32) -> Entry
    ensures { result ≡ entry_for asked q place }
{
    match asked {
        Asked::AsSubject => Entry {
            first: q.p,
            second: q.o,
            value: q.s,
            quad: place,
        },
        Asked::AsObject => Entry {
            first: q.s,
            second: q.p,
            value: q.o,
            quad: place,
        },
        Asked::AsBoth => Entry {
            first: q.p,
            second: if q.s == q.o { 1 } else { 0 },
            value: q.s,
            quad: place,
        },
        Asked::AsSomeSubject => Entry {
            first: q.p,
            second: 0,
            value: q.s,
            quad: place,
        },
        Asked::AsSomeObject => Entry {
            first: q.p,
            second: 0,
            value: q.o,
            quad: place,
        },
    }
}

fn entries_of(alloc: Global, asked: Asked, quads: &[Quad]) -> Result<Vec<Entry>, NoMemory>
    requires { length quads.now ≤ MOST_QUADS }
    ensures count { IfOk result (λ es. length es.items ≡ length quads.now) }
    ensures each { IfOk result (λ es. (k : ℕ) → k < length quads.now → entry_at es.items k ≡ entry_for asked (quad_at quads.now k) k) }
{
    let mut entries = Vec::new(alloc);
    for (place, quad) in quads.iter().enumerate() {
        entries.push(entry_of(asked, *quad, place as u32))?;
    }
    Ok(entries)
}

fn table_of(alloc: Global, asked: Asked, quads: &[Quad], live: &[bool]) -> Result<Table, NoMemory>
    requires bound { length quads.now ≤ MOST_QUADS }
    requires all { (k : ℕ) → k < length quads.now → mark_at live.now k ≡ true }
    ensures { IfOk result (IsTableOf asked quads.now live.now) }
{
    let entries = entries_of(alloc, asked, quads)?;
    Table::build(alloc, entries)
}

/// The triples of a graph, of which some may be taken away.
#[derive(Drop)]
pub struct Index {
    quads: Vec<Quad>,
    live: Vec<bool>,
    terms: u32,
    subjects: Table,
    objects: Table,
    both: Table,
    some_subjects: Table,
    some_objects: Table,
}

impl Model for Index {
    ghost use Rattle.map_search.specs.Index.{IndexView, IsIndex};

    ghost Value = { IndexView };

    ghost view = { λ i. record { quads = i.quads.items; live = i.live.items; terms = i.terms } };

    ghost invariant = { λ i. IsIndex (record { quads = i.quads.items; live = i.live.items; terms = i.terms }) i.subjects i.objects i.both i.some_subjects i.some_objects };
}

impl Index {
    /// All of the quads, whose terms are below a number.
    pub fn build(alloc: Global, quads: &[Quad], terms: u32) -> Result<Self, NoMemory>
        requires bound { length quads.now ≤ MOST_QUADS }
        requires in_range { All (λ q. q.s < terms) quads.now }
        requires in_range_too { All (λ q. q.o < terms) quads.now }
        ensures quads { IfOk result (λ i. i.quads ≡ quads.now) }
        ensures terms { IfOk result (λ i. i.terms ≡ terms) }
        ensures live { IfOk result (λ i. (k : ℕ) → k < length quads.now → mark_at i.live k ≡ true) }
        ensures count { IfOk result (λ i. length i.live ≡ length quads.now) }
    {
        let live = vec![in alloc; true; quads.len()]?;
        let subjects = table_of(alloc, Asked::AsSubject, quads, live.as_slice())?;
        let objects = table_of(alloc, Asked::AsObject, quads, live.as_slice())?;
        let both = table_of(alloc, Asked::AsBoth, quads, live.as_slice())?;
        let some_subjects = table_of(alloc, Asked::AsSomeSubject, quads, live.as_slice())?;
        let some_objects = table_of(alloc, Asked::AsSomeObject, quads, live.as_slice())?;
        Ok(Index {
            quads: quads.to_vec(alloc)?,
            live,
            terms,
            subjects,
            objects,
            both,
            some_subjects,
            some_objects,
        })
    }

    /// How many triples it was built of.
    pub fn len(&self) -> usize
        ensures len { result ≡ length self.now.quads }
        ensures live { length self.now.live ≡ length self.now.quads }
    {
        self.quads.len()
    }

    pub fn is_empty(&self) -> bool
        ensures { IsTrue result ↔ (self.now.quads ≡ []) }
    {
        self.quads.is_empty()
    }

    /// The triple at this place.
    pub fn quad(&self, place: u32) -> Quad
        ensures { result ≡ quad_at self.now.quads place }
    {
        if (place as usize) < self.quads.len() {
            self.quads[place as usize]
        } else {
            Quad {
                s: 0,
                p: 0,
                o: 0,
                g: None,
            }
        }
    }

    /// Terms have numbers below this one.
    pub fn terms(&self) -> u32
        ensures { result ≡ self.now.terms }
    {
        self.terms
    }

    /// Whether the triple at this place is there.
    pub fn has(&self, place: u32) -> bool
        ensures { result ≡ mark_at self.now.live place }
    {
        (place as usize) < self.live.len() && self.live[place as usize]
    }

    /// Takes the triple at this place away, or back.
    pub fn set(&mut self, place: u32, there: bool)
        requires { place < length self.old.quads }
        ensures quads { self.new.quads ≡ self.old.quads }
        ensures terms { self.new.terms ≡ self.old.terms }
        ensures live { self.new.live ≡ slice_set self.old.live place there }
    {
        let quad = self.quads[place as usize];
        self.live[place as usize] = there;
        self.subjects
            .set(entry_of(Asked::AsSubject, quad, place), there);
        self.objects
            .set(entry_of(Asked::AsObject, quad, place), there);
        self.both.set(entry_of(Asked::AsBoth, quad, place), there);
        self.some_subjects
            .set(entry_of(Asked::AsSomeSubject, quad, place), there);
        self.some_objects
            .set(entry_of(Asked::AsSomeObject, quad, place), there);
    }

    /// How many triples have this predicate and object, those that have gone among them.
    pub fn subjects_of(&self, p: u32, o: u32) -> usize {
        self.subjects.width(p, o)
    }

    /// How many triples have this subject and predicate, those that have gone among them.
    pub fn objects_of(&self, s: u32, p: u32) -> usize {
        self.objects.width(s, p)
    }

    /// How many triples have this predicate, those that have gone among them.
    pub fn triples_of(&self, p: u32) -> usize {
        self.some_subjects.width(p, 0)
    }
}

fn image_at(images: &[u32], place: u32) -> u32
    ensures { result ≡ slice_index images.now place }
{
    if (place as usize) < images.len() {
        images[place as usize]
    } else {
        0
    }
}

fn end(images: &[u32], end: End) -> u32
    ensures { result ≡ end_at images.now end }
{
    match end {
        End::Fixed(number) => number,
        End::Place(place) => image_at(images, place),
    }
}

impl Lookup for Index {
    ghost use Rattle.map_search.specs.Index.{meets_in, graph_of};

    ghost bound = { λ i. i.terms };

    ghost meets = { λ i. meets_in (graph_of i) };

    fn bound(&self) -> u32 {
        self.terms
    }

    fn next(&self, condition: Condition, images: &[u32], from: u32) -> Option<u32> {
        match condition {
            Condition::Subject(p, o) => self.subjects.least(p, end(images, o), from),
            Condition::Object(s, p) => self.objects.least(end(images, s), p, from),
            Condition::Both(p) => self.both.least(p, 1, from),
            Condition::SomeSubject(p) => self.some_subjects.least(p, 0, from),
            Condition::SomeObject(p) => self.some_objects.least(p, 0, from),
        }
    }
}
