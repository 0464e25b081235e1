// The grid network: the zones of a grid of rows and columns, joined as a piece of chess moves.
#![tactic(auto)]

mod judging;
mod walking;

ghost use Rattle.std.specs.Prelude.{◌≡◌, length};
ghost use Rattle.refusals.specs.Refusals.{number_of};
ghost use Rattle.grid.specs.Grid.{grid_refusal, grid_left};

use refusals::Refusal;

// The kinds of move.
#[derive(Clone, Copy)]
pub enum Move {
    Rook,
    Bishop,
    Queen,
}

// Makes the network of a grid, zones row by row: `weights` is lent (rows × columns) squared places, a row for each zone, and is left as it
// was where the call is refused.
#[tactic(auto, unfolding(crate::specs::Grid::grid_left))]
pub fn grid(rows: usize, columns: usize, kind: Move, weights: &mut [u8]) -> Result<(), Refusal>
    ensures number { number_of result ≡ grid_refusal rows columns (length weights.old) }
    ensures lent { weights.new ≡ grid_left rows columns kind weights.old }
{
    let shape = judging::judge_grid(rows, columns, weights.len())?;
    shape.walk_cells(kind, weights);
    Ok(())
}
