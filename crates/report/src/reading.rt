// The text of an image: it is read, and its job's lines are put. A refused image leaves the page as it was.
ghost use Rattle.image.specs.Reader.{buffers};
ghost use Rattle.image.specs.Writer.{listed, lent_job};
ghost use Rattle.report.specs.Text.{job_text};
ghost use Rattle.report.specs.Steps.{Put, Exact, Held, given_of, Prints};

use crate::{Page, working};
use image::Lists;
use reader::Counts;
use refusals::Refusal;

// The lines of the job in the buffers: the first entries of each, as many as the counts say. Each of the six is cut at a length that is
// worked out in its own way, so that a function for all would be no shorter.
fn put_read(page: &mut Page, counts: Counts, held: &Lists) -> usize
    requires { Held counts (listed held.now) }
    ensures { Put page.old page.new 0 result 16203
        (job_text counts.values (lent_job (given_of counts) (listed held.now))) }
{
    let n = counts.values;
    let pairs = n * n;
    let in_categories = counts.categories;
    let in_places = 2 * counts.places;
    let in_bands = counts.bands;
    let in_shuffles = counts.shuffles * n;
    let lists = Lists {
        values: &held.values[..n],
        categories: &held.categories[..in_categories],
        weights: &held.weights[..pairs],
        places: &held.places[..in_places],
        bands: &held.bands[..in_bands],
        shuffles: &held.shuffles[..in_shuffles],
    };
    working::put_job(page, &lists)
}

// The text of an image, by way of buffers that the reader is lent. They are six parameters, as the reader's are: `Lists` lends lists to be
// read, and six to be written are handed on to one call alone.
fn put_text(
    page: &mut Page,
    image: &[u8],
    values: &mut [i32],
    categories: &mut [u8],
    weights: &mut [u8],
    places: &mut [i32],
    bands: &mut [u32],
    shuffles: &mut [u8],
) -> Result<usize, Refusal>
    requires { Exact (buffers values.old categories.old weights.old places.old bands.old shuffles.old) }
    ensures { Prints image.now page.old page.new result }
{
    let counts = reader::read(image, values, categories, weights, places, bands, shuffles)?;
    let held = Lists {
        values,
        categories,
        weights,
        places,
        bands,
        shuffles,
    };
    Ok(put_read(page, counts, &held))
}

// The text of an image at the front of a page.
pub(super) fn put_report(page: &mut Page, image: &[u8]) -> Result<usize, Refusal>
    ensures { Prints image.now page.old page.new result }
{
    let mut values: [i32; 64] = [0; 64];
    let mut categories: [u8; 64] = [0; 64];
    let mut weights: [u8; 4096] = rooms::room();
    let mut places: [i32; 128] = [0; 128];
    let mut bands: [u32; 8] = [0; 8];
    let mut shuffles: [u8; 31936] = rooms::room();
    put_text(
        page,
        image,
        &mut values,
        &mut categories,
        &mut weights,
        &mut places,
        &mut bands,
        &mut shuffles,
    )
}
