// The judge of a grid.
ghost use Rattle.std.specs.Prelude.{◌≡◌, ◌*◌, IfOk};
ghost use Rattle.refusals.specs.Refusals.{number_of};
ghost use Rattle.grid.specs.Grid.{grid_refusal};

use crate::walking::Shape;
use judges::Places;
use refusals::Refusal;

// 1 and 2: too many zones to be counted are too many.
#[tactic(auto, unfolding(crate::specs::Grid::grid_refusal))]
pub(super) fn judge_grid(rows: usize, columns: usize, room: usize) -> Result<Shape, Refusal>
    ensures number { number_of result ≡ grid_refusal rows columns room }
    ensures shape { IfOk result (λ shape. (shape.rows ≡ rows) × (shape.columns ≡ columns)) }
    ensures room { IfOk result (λ shape. room ≡ (rows * columns) * (rows * columns)) }
{
    let zones = rows.checked_mul(columns).ok_or(Refusal::Zones)?;
    judges::judge_lent(zones, &[(room, Places::Pairs)])?;
    Ok(Shape { rows, columns })
}
