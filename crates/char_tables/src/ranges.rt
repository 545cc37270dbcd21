//! A table of code points in rows, searched by halving.

ghost use Rattle.std.specs.Prelude.{◌≡◌, ℕ, List, IsTrue};
ghost use Rattle.char_tables.specs.Rows.{is_in, are_in_order};

use std::marker::Model;

/// A table of code points in rows, each from its first code point to its last.
#[derive(Clone, Copy, Debug)]
pub struct Ranges<const N: usize> {
    rows: [(u32, u32); N],
}

impl<const N: usize> Model for Ranges<N> {
    ghost Value = { List (ℕ × ℕ) };

    ghost view = { λ r. r.rows };

    ghost invariant = { λ r. IsTrue (are_in_order r.rows) };

    ghost inverse = { λ rows. record { rows = rows } };
}

impl<const N: usize> Ranges<N> {
    pub fn new(rows: [(u32, u32); N]) -> Self
        requires { IsTrue (are_in_order rows) }
        ensures { result ≡ rows.entry }
    {
        Ranges { rows }
    }

    /// Whether a row holds the code point of `c`.
    pub fn contains(&self, c: char) -> bool
        ensures { result ≡ is_in self.now c }
    {
        search(&self.rows, c as u32)
    }
}

// Whether a row holds the code point, by binary search.
fn search(rows: &[(u32, u32)], code: u32) -> bool
    requires { IsTrue (are_in_order rows.now) }
    ensures { result ≡ is_in rows.now code }
{
    let mut low = 0;
    let mut high = rows.len();
    while low < high {
        let middle = low + (high - low) / 2;
        let (first, last) = rows[middle];
        if code < first {
            high = middle;
        } else if last < code {
            low = middle + 1;
        } else {
            return true;
        }
    }
    false
}
