// The moves from each cell of a grid that was judged and accepted.
ghost use Rattle.std.specs.Prelude.{◌≡◌, ◌↔◌, ℕ, ◌+◌, ◌*◌, ◌<◌, ◌≤◌, pos, ◌+ℤ◌, length, true, Some, IfSome};
ghost use Rattle.whole.specs.Table.{table};
ghost use Rattle.grid.specs.Grid.{grid_weight, grid_network};
ghost use Rattle.grid.specs.Moves.{leads, steps_of};
ghost use Rattle.grid.specs.Steps.{landing};

use crate::Move;

// Row step and column step of each move: the rook's four, then the bishop's four.
const STEPS: [(isize, isize); 8] = [
    (-1, 0),
    (1, 0),
    (0, -1),
    (0, 1),
    (-1, -1),
    (1, 1),
    (-1, 1),
    (1, -1),
];

// The moves of a kind.
fn steps(kind: Move) -> &'static [(isize, isize)]
    ensures { result.now ≡ steps_of kind }
{
    match kind {
        Move::Rook => &STEPS[..4],
        Move::Bishop => &STEPS[4..],
        Move::Queen => &STEPS,
    }
}

// Where a step leads in a line of so many cells, if not out of it.
fn landing(at: usize, step: isize, cells: usize) -> Option<usize>
    ensures { result ≡ landing cells (pos at +ℤ step) }
{
    at.checked_add_signed(step).filter(|&cell| cell < cells)
}

// The rows and columns of a grid of at most 64 zones.
#[derive(Clone, Copy)]
pub(super) struct Shape {
    pub(super) rows: usize,
    pub(super) columns: usize,
    ghost small: { rows * columns ≤ 64 },
}

impl Shape {
    // The zone that a step from the cell of a row and a column leads to, if one of the grid.
    fn reached(self, row: usize, column: usize, step: (isize, isize)) -> Option<usize>
        requires row_bound { row < self.rows }
        requires column_bound { column < self.columns }
        ensures within { IfSome result (λ j. j < self.rows * self.columns) }
        ensures only { (j : ℕ) → j < self.rows * self.columns → ((leads self.columns (row * self.columns + column) j step ≡ true) ↔ (result ≡ Some j)) }
    {
        let to_row = landing(row, step.0, self.rows)?;
        let to_column = landing(column, step.1, self.columns)?;
        Some(to_row * self.columns + to_column)
    }

    // The row of weights of the zone of a row and a column: 1 where a move of the kind leads to.
    fn mark_moves(self, kind: Move, row: usize, column: usize, marks: &mut [u8])
        requires row_bound { row < self.rows }
        requires column_bound { column < self.columns }
        requires marks_len { length marks.old ≡ self.rows * self.columns }
        ensures { marks.new ≡ table (grid_weight kind self.columns (row * self.columns + column)) (self.rows * self.columns) }
    {
        marks.fill(0);
        for &step in steps(kind) {
            if let Some(zone) = self.reached(row, column, step) {
                marks[zone] = 1;
            }
        }
    }

    // The rows of all zones, each found by its place: what parts of chunks_exact_mut hold afterwards, no proof knows.
    pub(super) fn walk_cells(self, kind: Move, weights: &mut [u8])
        requires weights_len { length weights.old ≡ (self.rows * self.columns) * (self.rows * self.columns) }
        ensures { weights.new ≡ grid_network self.rows self.columns kind }
    {
        let zones = self.rows * self.columns;
        for row in 0..self.rows {
            for column in 0..self.columns {
                let first = (row * self.columns + column) * zones;
                self.mark_moves(kind, row, column, &mut weights[first..first + zones]);
            }
        }
    }
}
