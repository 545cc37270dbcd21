//! Numbers that are found under two others, in order, of which some have gone.
ghost use Rattle.std.specs.Prelude.{◌≡◌, ℕ, ◌<◌, ◌≤◌, ◌^◌, Bool, true, length, All, EachIndex, slice_index, IsTrue, ◌↔◌, ◌⊎◌, IfOk, IfSome, IfNone};
ghost use Rattle.rdf_terms.specs.Lists.{In, AreDistinct, Permutes};
ghost use Rattle.map_search.specs.Marks.{mark_at};
ghost use Rattle.map_search.specs.Table.{entry_at, HasEntry, IsLeastValue, IsStart, is_before};

use crate::marks::Marks;
use rdf_terms::NoMemory;
use std::alloc::Global;
use std::marker::Model;

// A number that is found under the first two, and the place of its triple.
#[derive(Clone, Copy, Debug, PartialEq, Eq, PartialOrd, Ord)]
pub(crate) struct Entry {
    pub(crate) first: u32,
    pub(crate) second: u32,
    pub(crate) value: u32,
    pub(crate) quad: u32,
}

// Entries in order, each once, and which of them are there.
#[derive(Drop)]
pub(crate) struct Table {
    entries: Vec<Entry>,
    marks: Marks,
}

impl Model for Table {
    ghost use Rattle.map_search.specs.Table.{TableView, IsTable};

    ghost Value = { TableView };

    ghost view = { λ t. record { entries = t.entries.items; marks = t.marks } };

    ghost invariant = { λ t. IsTable (record { entries = t.entries.items; marks = t.marks }) };
}

// In order of all four numbers.
fn is_below(a: Entry, b: Entry) -> bool
    ensures { result ≡ is_before a b }
{
    a.first < b.first
        || a.first == b.first
            && (a.second < b.second
                || a.second == b.second
                    && (a.value < b.value || a.value == b.value && a.quad < b.quad))
}

// The place of the first entry that is not below this one.
fn start_of(entries: &[Entry], sought: Entry) -> usize
    requires { (i j : ℕ) → i < j → j < length entries.now → is_before (entry_at entries.now i) (entry_at entries.now j) ≡ true }
    ensures { IsStart entries.now sought result }
{
    let mut low = 0;
    let mut high = entries.len();
    while low < high {
        let middle = low + (high - low) / 2;
        if is_below(entries[middle], sought) {
            low = middle + 1;
        } else {
            high = middle;
        }
    }
    low
}

impl Table {
    // The entries, all of which are there.
    pub(crate) fn build(alloc: Global, entries: Vec<Entry>) -> Result<Self, NoMemory>
        requires distinct { AreDistinct entries.items }
        requires bound { length entries.items < 2 ^ 33 }
        ensures permutes { IfOk result (λ t. Permutes entries.items t.entries) }
        ensures all { IfOk result (λ t. (k : ℕ) → k < length t.entries → mark_at t.marks k ≡ true) }
    {
        let mut entries = entries;
        let marks = Marks::new(alloc, entries.len(), true)?;
        entries.sort_unstable();
        Ok(Table { entries, marks })
    }

    // The least number from `from` on that is found under these two.
    pub(crate) fn least(&self, first: u32, second: u32, from: u32) -> Option<u32>
        ensures some { IfSome result (IsLeastValue self.now first second from) }
        ensures none { IfNone result ((value : ℕ) → from ≤ value → ¬ (HasEntry self.now first second value)) }
    {
        let start = start_of(
            self.entries.as_slice(),
            Entry {
                first,
                second,
                value: from,
                quad: 0,
            },
        );
        match self.marks.next(start) {
            None => None,
            Some(at) => {
                if at < self.entries.len()
                    && self.entries[at].first == first
                    && self.entries[at].second == second
                {
                    Some(self.entries[at].value)
                } else {
                    None
                }
            }
        }
    }

    // How many entries there are under these two, those that have gone among them.
    pub(crate) fn width(&self, first: u32, second: u32) -> usize {
        let start = start_of(
            self.entries.as_slice(),
            Entry {
                first,
                second,
                value: 0,
                quad: 0,
            },
        );
        let end = start_of(
            self.entries.as_slice(),
            Entry {
                first,
                second,
                value: u32::MAX,
                quad: u32::MAX,
            },
        );
        end.saturating_sub(start)
    }

    // Takes the entry away, or back.
    pub(crate) fn set(&mut self, entry: Entry, there: bool)
        requires { In entry self.old.entries }
        ensures entries { self.new.entries ≡ self.old.entries }
        ensures here { (k : ℕ) → k < length self.old.entries → entry_at self.old.entries k ≡ entry → mark_at self.new.marks k ≡ there }
        ensures others { (k : ℕ) → k < length self.old.entries → (entry_at self.old.entries k ≡ entry → ⊥) → mark_at self.new.marks k ≡ mark_at self.old.marks k }
    {
        let place = start_of(self.entries.as_slice(), entry);
        self.marks.set(place, there);
    }
}
