//! Tables of predictive parsers.
ghost use Rattle.std.specs.Prelude.{◌≡◌, ◌<◌, [], None, slice_index_or};

/// The table of a predictive parser: rows for what the grammar names, columns for kinds of tokens.
/// A cell has the number of the production to take, where there is one.
#[derive(Drop)]
pub struct Ll1<const N: usize, const T: usize> {
    pub(crate) cells: [[Option<u8>; T]; N],
}

impl<const N: usize, const T: usize> Ll1<N, T> {
    pub const fn new(cells: [[Option<u8>; T]; N]) -> Self
        ensures { result.cells ≡ cells.entry }
    {
        Ll1 { cells }
    }

    /// The production to take for the name of the row before a token of the column.
    pub fn rule(&self, row: usize, column: usize) -> Option<u8>
        requires row { row < N }
        requires column { column < T }
        ensures { result ≡ slice_index_or (slice_index_or self.now.cells row []) column None }
    {
        self.cells[row][column]
    }
}
