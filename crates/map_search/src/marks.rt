//! Marks of places, of which the next one is found in logarithmic time.
ghost use Rattle.std.specs.Prelude.{◌≡◌, ℕ, ◌+◌, ◌*◌, ◌<◌, ◌≤◌, ◌^◌, true, false, length, IfOk, IfSome, IfNone, if◌then◌else◌, ◌==◌};
ghost use Rattle.map_search.specs.Marks.{mark_at, IsNextMark, NoMark, AreAbove};

use rdf_terms::NoMemory;
use std::alloc::Global;
use std::marker::Model;

/// A mark for each of some places. Behind them stands for each two of them whether one has a mark, for
/// each two of those again, and so on up to place 1, which says whether any has.
#[derive(Drop)]
pub struct Marks {
    marks: Vec<bool>,
    width: usize,
    height: usize,
}

impl Model for Marks {
    ghost use Rattle.std.specs.Prelude.{List, Bool, drop};
    ghost use Rattle.map_search.specs.Marks.{AreMarks};

    ghost Value = { List Bool };

    ghost view = { λ m. drop m.width m.marks.items };

    ghost invariant = { λ m. AreMarks m.marks.items m.width m.height };
}

// The first marked place from `at` on, before the end of its row, which has half as many places as
// there are before its end.
fn next_at(marks: &[bool], at: usize, end: usize, height: usize) -> Option<usize>
    requires above { AreAbove marks.now }
    requires end { end ≡ 2 ^ height }
    requires within { end ≤ length marks.now }
    requires first { 0 < at }
    requires before { at < end }
    ensures some { IfSome result (IsNextMark marks.now at end) }
    ensures none { IfNone result (NoMark marks.now at end) }
{
    if marks[at] {
        return Some(at);
    }
    if at + 1 == end {
        return None;
    }
    if at % 2 == 0 && marks[at + 1] {
        return Some(at + 1);
    }
    if at % 2 == 0 && at + 2 == end {
        return None;
    }
    match next_at(marks, at / 2 + 1, end / 2, height - 1) {
        None => None,
        Some(above) => {
            if marks[2 * above] {
                Some(2 * above)
            } else {
                Some(2 * above + 1)
            }
        }
    }
}

impl Marks {
    /// So many places, and perhaps some more, all with a mark or all with none.
    pub fn new(alloc: Global, count: usize, mark: bool) -> Result<Self, NoMemory>
        requires { count < 2 ^ 33 }
        ensures enough { IfOk result (λ m. count ≤ length m) }
        ensures all { IfOk result (λ m. (k : ℕ) → k < length m → mark_at m k ≡ mark) }
    {
        let mut width = 1;
        let mut height = 0;
        while width < count {
            width *= 2;
            height += 1;
        }
        let marks = vec![in alloc; mark; 2 * width]?;
        Ok(Marks {
            marks,
            width,
            height,
        })
    }

    /// The first marked place from this one on.
    pub fn next(&self, from: usize) -> Option<usize>
        ensures some { IfSome result (IsNextMark self.now from (length self.now)) }
        ensures none { IfNone result (NoMark self.now from (length self.now)) }
    {
        if from >= self.width {
            return None;
        }
        match next_at(
            self.marks.as_slice(),
            self.width + from,
            2 * self.width,
            self.height + 1,
        ) {
            None => None,
            Some(at) => Some(at - self.width),
        }
    }

    pub fn set(&mut self, place: usize, mark: bool)
        requires { place < length self.old }
        ensures length { length self.new ≡ length self.old }
        ensures here { mark_at self.new place ≡ mark }
        ensures others { (k : ℕ) → (k ≡ place → ⊥) → mark_at self.new k ≡ mark_at self.old k }
    {
        let mut at = self.width + place;
        self.marks[at] = mark;
        while at > 1 {
            at /= 2;
            let above = self.marks[2 * at] || self.marks[2 * at + 1];
            self.marks[at] = above;
        }
    }
}
