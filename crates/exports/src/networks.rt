// The join table, the networks and the bands.
ghost use Rattle.std.specs.Prelude.{◌≡◌, length};
ghost use Rattle.joins.specs.Joins.{join_refusal, joins_left};
ghost use Rattle.places.specs.Gabriel.{gabriel_refusal, gabriel_left};
ghost use Rattle.places.specs.Bands.{band_refusal, bands_left};
ghost use Rattle.grid.specs.Grid.{grid_refusal, grid_left};
ghost use Rattle.grid.specs.declared.Move.TheVariants.{Rook, Bishop, Queen};

use grid::Move;

// T(0,0), T(0,1), .., T(7,7) go to `table`, 64 places.
#[unsafe(no_mangle)]
pub extern "C" fn dca_join_table(
    n: usize,
    values: &[i32],
    categories: &[u8],
    weights: &[u8],
    table: &mut [i64],
) -> u8
    ensures number { result ≡ join_refusal n values.now categories.now weights.now (length table.old) }
    ensures lent { table.new ≡ joins_left n values.now categories.now weights.now table.old }
{
    refusals::number_of(joins::join_table(n, values, categories, weights, table))
}

// The Gabriel network of the places, two coordinates a zone, goes to `weights`, n × n places.
#[unsafe(no_mangle)]
pub extern "C" fn dca_gabriel(n: usize, places: &[i32], weights: &mut [u8]) -> u8
    ensures number { result ≡ gabriel_refusal n places.now (length weights.old) }
    ensures lent { weights.new ≡ gabriel_left n places.now weights.old }
{
    refusals::number_of(places::gabriel(n, places, weights))
}

// The classes of the pairs by 1 to 8 bands go to `classes`, n × n places.
#[unsafe(no_mangle)]
pub extern "C" fn dca_bands(n: usize, places: &[i32], bands: &[u32], classes: &mut [u8]) -> u8
    ensures number { result ≡ band_refusal n places.now bands.now (length classes.old) }
    ensures lent { classes.new ≡ bands_left n places.now bands.now classes.old }
{
    refusals::number_of(places::bands(n, places, bands, classes))
}

// The network of a grid, (rows × columns) squared places in `weights`, by one function for each kind of move: the header fixes the three
// names, and C hands over no `Move`.
#[unsafe(no_mangle)]
pub extern "C" fn dca_grid_rook(rows: usize, columns: usize, weights: &mut [u8]) -> u8
    ensures number { result ≡ grid_refusal rows columns (length weights.old) }
    ensures lent { weights.new ≡ grid_left rows columns Rook weights.old }
{
    refusals::number_of(grid::grid(rows, columns, Move::Rook, weights))
}

#[unsafe(no_mangle)]
pub extern "C" fn dca_grid_bishop(rows: usize, columns: usize, weights: &mut [u8]) -> u8
    ensures number { result ≡ grid_refusal rows columns (length weights.old) }
    ensures lent { weights.new ≡ grid_left rows columns Bishop weights.old }
{
    refusals::number_of(grid::grid(rows, columns, Move::Bishop, weights))
}

#[unsafe(no_mangle)]
pub extern "C" fn dca_grid_queen(rows: usize, columns: usize, weights: &mut [u8]) -> u8
    ensures number { result ≡ grid_refusal rows columns (length weights.old) }
    ensures lent { weights.new ≡ grid_left rows columns Queen weights.old }
{
    refusals::number_of(grid::grid(rows, columns, Move::Queen, weights))
}
