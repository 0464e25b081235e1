// The stores of an accepted image. Of each buffer the first entries are the job's, and the others keep what they held.
ghost use Rattle.std.specs.Prelude.{◌≡◌, false};
ghost use Rattle.whole.specs.Rules.{misfits};
ghost use Rattle.image.specs.Reader.{buffers, buffer_lengths, filled};
ghost use Rattle.reader.specs.Steps.{Fitting, job_in};

use crate::joining;
use crate::judging::Sections;

// The whole job. The six lists come as C lends them: a struct of six `&mut` would be made by the caller only to be taken apart here.
// Bytes are taken one by one, as all numbers are: for the library's copy the calls for C would need memmove from outside.
pub(super) fn store(
    job: &Sections,
    values: &mut [i32],
    categories: &mut [u8],
    weights: &mut [u8],
    places: &mut [i32],
    bands: &mut [u32],
    shuffles: &mut [u8],
)
    requires fitting { Fitting job.now }
    requires lengths { misfits (buffer_lengths (buffers values.old categories.old weights.old places.old bands.old shuffles.old)) ≡ false }
    ensures { buffers values.new categories.new weights.new places.new bands.new shuffles.new
        ≡ filled (job_in job.now) (buffers values.old categories.old weights.old places.old bands.old shuffles.old) }
{
    let n = job.values.count;
    words::entries_in(job.values.items, &mut values[..n]);
    words::entries_in(
        job.categories.items,
        &mut categories[..job.categories.count],
    );
    joining::put_joins(n, job.joins, &mut weights[..n * n]);
    words::entries_in(job.places.items, &mut places[..2 * job.places.count]);
    words::entries_in(job.bands.items, &mut bands[..job.bands.count]);
    // by one length for both: with two the compiler asks at each byte whether it is the last
    let entries = n * job.shuffles.count;
    words::entries_in(&job.shuffles.items[..entries], &mut shuffles[..entries]);
}
