//! Maps of the nodes of a component into a graph.
use map_search::{Condition, Index, Problem, next_in_row};
use rdf_terms::NoMemory;
use std::alloc::Global;

// Any map of all nodes is looked for.
#[derive(Drop)]
pub(crate) struct AnyMap<'a> {
    pub(crate) index: &'a Index,
    pub(crate) rows: &'a [Vec<Condition>],
}

impl Problem for AnyMap<'_> {
    ghost use Rattle.std.specs.Prelude.{length, map, true};
    ghost use Rattle.map_search.specs.Pattern.{fits_rows};
    ghost use Rattle.map_search.specs.Index.{meets_in, graph_of};

    ghost places = { λ p. length p.rows.now };

    ghost bound = { λ p. p.index.now.terms };

    ghost fits = { λ p. fits_rows (meets_in (graph_of p.index.now)) (map (λ row. row.items) p.rows.now) };

    ghost sought = { λ p images. true };

    fn places(&self) -> usize {
        let _bound = self.index.terms();
        self.rows.len()
    }

    fn next(&self, images: &[u32], from: u32) -> Option<u32> {
        next_in_row(self.index, self.rows[images.len()].as_slice(), images, from)
    }

    fn is_sought(&self, _alloc: Global, _images: &[u32]) -> Result<bool, NoMemory> {
        Ok(true)
    }
}
