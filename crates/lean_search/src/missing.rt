//! Maps of the nodes of a component that miss one of its triples.
ghost use Rattle.std.specs.Prelude.{◌≡◌, ◌==◌, ◌↔◌, IfOk, IsTrue, IsSorted};
ghost use Rattle.std.specs.Ordering.{nat_cmp};
ghost use Rattle.rdf_terms.specs.Lists.{In};
ghost use Rattle.std.specs.List.{list_any};
ghost use Rattle.map_search.specs.Pattern.{misses_node};

use map_search::{Condition, Index, Problem, next_in_row};
use rdf_terms::NoMemory;
use std::alloc::Global;

#[derive(Drop)]
pub(crate) struct Missing<'a> {
    pub(crate) index: &'a Index,
    pub(crate) rows: &'a [Vec<Condition>],
    pub(crate) terms: &'a [u32],
}

fn is_in(sorted: &[u32], term: u32) -> bool
    requires { IsSorted nat_cmp sorted.now }
    ensures { IsTrue result ↔ In term sorted.now }
{
    sorted.binary_search(&term).is_ok()
}

// Whether some of the terms is no image.
fn misses(alloc: Global, terms: &[u32], images: &[u32]) -> Result<bool, NoMemory>
    ensures { IfOk result (λ is. is ≡ misses_node terms.now images.now) }
{
    let mut sorted = images.to_vec(alloc)?;
    sorted.sort_unstable();
    for term in terms {
        if !is_in(sorted.as_slice(), *term) {
            return Ok(true);
        }
    }
    Ok(false)
}

impl Problem for Missing<'_> {
    ghost use Rattle.std.specs.Prelude.{length, map};
    ghost use Rattle.map_search.specs.Pattern.{fits_rows, misses_node};
    ghost use Rattle.map_search.specs.Index.{meets_in, graph_of};

    ghost places = { λ p. length p.rows.now };

    ghost bound = { λ p. p.index.now.terms };

    ghost fits = { λ p. fits_rows (meets_in (graph_of p.index.now)) (map (λ row. row.items) p.rows.now) };

    // a node that is no image
    ghost sought = { λ p. misses_node p.terms.now };

    fn places(&self) -> usize {
        let _bound = self.index.terms();
        self.rows.len()
    }

    fn next(&self, images: &[u32], from: u32) -> Option<u32> {
        next_in_row(self.index, self.rows[images.len()].as_slice(), images, from)
    }

    fn is_sought(&self, alloc: Global, images: &[u32]) -> Result<bool, NoMemory> {
        misses(alloc, self.terms, images)
    }
}
