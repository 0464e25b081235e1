// Class rows out of what holds their sums: the list of the nine, or the sums of a job.
ghost use Rattle.std.specs.Prelude.{◌≡◌, ◌<◌};
ghost use Rattle.whole.specs.Table.{table};
ghost use Rattle.account.specs.Classes.{row_at};

use crate::{ClassRow, Sums};
use std::array;

// The row of class k, from the three sums in its places.
fn row_of(sums: &[i64; 27], k: usize) -> ClassRow
    requires { k < 9 }
    ensures { result ≡ row_at sums.now k }
{
    let (rows, _) = sums.as_chunks::<3>();
    let [weight, cross, squares] = rows[k];
    ClassRow {
        weight,
        cross,
        squares,
    }
}

impl ClassRow {
    // The rows of class 0, of class 1, .., from the list that the class account puts their sums into.
    pub fn all(sums: &[i64; 27]) -> [ClassRow; 9]
        ensures { result ≡ table (row_at sums.now) 9 }
    {
        array::from_fn(|k| row_of(sums, k))
    }
}

// The row of a whole job.
impl From<Sums> for ClassRow {
    ghost from_gives = { λ sums row. row ≡ record { weight = sums.weight; cross = sums.cross; squares = sums.squares } };

    fn from(sums: Sums) -> ClassRow {
        ClassRow {
            weight: sums.weight,
            cross: sums.cross,
            squares: sums.squares,
        }
    }
}
