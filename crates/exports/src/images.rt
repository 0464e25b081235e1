// The reader, the writer and the report of a job image.
ghost use Rattle.std.specs.Prelude.{◌≡◌};
ghost use Rattle.refusals.specs.Refusals.{number_of};
ghost use Rattle.image.specs.Reader.{buffers};
ghost use Rattle.exports.specs.Images.{read_number, buffers_after, counts_after};
ghost use Rattle.exports.specs.Images.{write_number, out_after, length_after, text_number, text_after, text_length_after};

use crate::storing;
use image::Lists;
use refusals::Refusal;

// What `dca_read` answers, as a Result.
fn read_into(
    image: &[u8],
    values: &mut [i32],
    categories: &mut [u8],
    weights: &mut [u8],
    places: &mut [i32],
    bands: &mut [u32],
    shuffles: &mut [u8],
    counts: &mut [u64],
) -> Result<(), Refusal>
    ensures number { number_of result ≡ read_number image.now
        (buffers values.old categories.old weights.old
        places.old bands.old shuffles.old) counts.old }
    ensures lent { buffers values.new categories.new weights.new
        places.new bands.new shuffles.new
        ≡ buffers_after image.now
        (buffers values.old categories.old weights.old
        places.old bands.old shuffles.old) counts.old }
    ensures counts { counts.new ≡ counts_after image.now
        (buffers values.old categories.old weights.old
        places.old bands.old shuffles.old) counts.old }
{
    if counts.len() != 6 {
        return Err(Refusal::Length);
    }
    let six = reader::read(image, values, categories, weights, places, bands, shuffles)?;
    storing::put_counts(six, counts);
    Ok(())
}

// The job goes to the first entries of the buffers, which have 64, 64, 4,096, 128, 8 and 31,936, and the numbers of values, categories,
// joins, places, bands and shuffles to `counts`, 6 places.
#[unsafe(no_mangle)]
pub extern "C" fn dca_read(
    image: &[u8],
    values: &mut [i32],
    categories: &mut [u8],
    weights: &mut [u8],
    places: &mut [i32],
    bands: &mut [u32],
    shuffles: &mut [u8],
    counts: &mut [u64],
) -> u8
    ensures number { result ≡ read_number image.now
        (buffers values.old categories.old weights.old
        places.old bands.old shuffles.old) counts.old }
    ensures lent { buffers values.new categories.new weights.new
        places.new bands.new shuffles.new
        ≡ buffers_after image.now
        (buffers values.old categories.old weights.old
        places.old bands.old shuffles.old) counts.old }
    ensures counts { counts.new ≡ counts_after image.now
        (buffers values.old categories.old weights.old
        places.old bands.old shuffles.old) counts.old }
{
    refusals::number_of(read_into(
        image, values, categories, weights, places, bands, shuffles, counts,
    ))
}

// What `dca_write` answers, as a Result.
fn write_into(
    values: &[i32],
    categories: &[u8],
    weights: &[u8],
    places: &[i32],
    bands: &[u32],
    shuffles: &[u8],
    counts: &[u64],
    out: &mut [u8],
    filled: &mut [u64],
) -> Result<(), Refusal>
    ensures number { number_of result ≡ write_number
        (buffers values.now categories.now weights.now
        places.now bands.now shuffles.now)
        counts.now out.old filled.old }
    ensures out { out.new ≡ out_after
        (buffers values.now categories.now weights.now
        places.now bands.now shuffles.now)
        counts.now out.old filled.old }
    ensures filled { filled.new ≡ length_after
        (buffers values.now categories.now weights.now
        places.now bands.now shuffles.now)
        counts.now out.old filled.old }
{
    if counts.len() != 5 {
        return Err(Refusal::Length);
    }
    let given = storing::given(counts);
    image::judge_zone_count(given.values)?;
    if filled.len() != 1 {
        return Err(Refusal::Length);
    }
    let lists = Lists {
        values,
        categories,
        weights,
        places,
        bands,
        shuffles,
    };
    let bytes = writer::write(lists, given, out)?;
    storing::put_length(bytes, filled);
    Ok(())
}

// The image of the job in the buffers, as many first entries of each as `counts` says of values, categories, places, bands and shuffles,
// goes to the front of `out`, and its length to `filled`, 1 place.
#[unsafe(no_mangle)]
pub extern "C" fn dca_write(
    values: &[i32],
    categories: &[u8],
    weights: &[u8],
    places: &[i32],
    bands: &[u32],
    shuffles: &[u8],
    counts: &[u64],
    out: &mut [u8],
    filled: &mut [u64],
) -> u8
    ensures number { result ≡ write_number
        (buffers values.now categories.now weights.now
        places.now bands.now shuffles.now)
        counts.now out.old filled.old }
    ensures out { out.new ≡ out_after
        (buffers values.now categories.now weights.now
        places.now bands.now shuffles.now)
        counts.now out.old filled.old }
    ensures filled { filled.new ≡ length_after
        (buffers values.now categories.now weights.now
        places.now bands.now shuffles.now)
        counts.now out.old filled.old }
{
    refusals::number_of(write_into(
        values, categories, weights, places, bands, shuffles, counts, out, filled,
    ))
}

// What `dca_report` answers, as a Result.
fn report_into(image: &[u8], text: &mut [u8], filled: &mut [u64]) -> Result<(), Refusal>
    ensures number { number_of result ≡ text_number image.now text.old filled.old }
    ensures text { text.new ≡ text_after image.now text.old filled.old }
    ensures filled { filled.new ≡ text_length_after image.now text.old filled.old }
{
    if filled.len() != 1 {
        return Err(Refusal::Length);
    }
    let bytes = report::report(image, text)?;
    storing::put_length(bytes, filled);
    Ok(())
}

// The report of the image goes to the front of `text`, 16,384 places, and its length to `filled`, 1 place.
#[unsafe(no_mangle)]
pub extern "C" fn dca_report(image: &[u8], text: &mut [u8], filled: &mut [u64]) -> u8
    ensures number { result ≡ text_number image.now text.old filled.old }
    ensures text { text.new ≡ text_after image.now text.old filled.old }
    ensures filled { filled.new ≡ text_length_after image.now text.old filled.old }
{
    refusals::number_of(report_into(image, text, filled))
}
