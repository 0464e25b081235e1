// The nearest float and the float report. Lists of floats are lent as their bits, so that what a refusal leaves in them is said to the bit, and
// beside each a list for the numbers of their sides.
ghost use Rattle.std.specs.Prelude.{◌≡◌};
ghost use Rattle.refusals.specs.Refusals.{number_of};
ghost use Rattle.exports.specs.Floats.{nearest_number, nearest_after, side_after};
ghost use Rattle.exports.specs.Floats.{report_number, globals_after, global_sides_after, figures_after, local_sides_after};
ghost use Rattle.exports.specs.Floats.{pairs_after, pair_sides_after, has_pair_after};

use crate::storing;
use judges::Places;
use nearest::Side;
use refusals::Refusal;

// What `dca_nearest` answers, as a Result.
fn nearest_into(p: i64, q: i64, out: &mut [u64], side: &mut [u8]) -> Result<(), Refusal>
    ensures number { number_of result ≡ nearest_number p q out.old side.old }
    ensures lent { out.new ≡ nearest_after p q out.old side.old }
    ensures sided { side.new ≡ side_after p q out.old side.old }
{
    if out.len() != 1 || side.len() != 1 {
        return Err(Refusal::Length);
    }
    let figure = nearest::nearest(p, q)?;
    out[0] = figure.float.to_bits();
    side[0] = nearest::side_number(figure.side);
    Ok(())
}

// The nearest float to p / q goes to `out`, 1 place, and which way it was rounded to `side`, 1 place: 0 where the float equals the ratio, 1
// where it lies below and 2 where it lies above it, by value.
#[unsafe(no_mangle)]
pub extern "C" fn dca_nearest(p: i64, q: i64, out: &mut [u64], side: &mut [u8]) -> u8
    ensures number { result ≡ nearest_number p q out.old side.old }
    ensures lent { out.new ≡ nearest_after p q out.old side.old }
    ensures sided { side.new ≡ side_after p q out.old side.old }
{
    refusals::number_of(nearest_into(p, q, out, side))
}

// What `dca_float_report` answers, as a Result.
fn float_report_into(
    n: usize,
    values: &[i32],
    weights: &[u8],
    classes: &[u8],
    globals: &mut [u64],
    global_sides: &mut [u8],
    locals: &mut [u64],
    local_sides: &mut [u8],
    pairs: &mut [u64],
    pair_sides: &mut [u8],
    has_pair: &mut [u8],
) -> Result<(), Refusal>
    ensures number { number_of result ≡ report_number n values.now weights.now classes.now
        globals.old global_sides.old locals.old local_sides.old pairs.old pair_sides.old has_pair.old }
    ensures globals { globals.new ≡ globals_after n values.now weights.now classes.now
        globals.old global_sides.old locals.old local_sides.old pairs.old pair_sides.old has_pair.old }
    ensures global_sides { global_sides.new ≡ global_sides_after n values.now weights.now classes.now
        globals.old global_sides.old locals.old local_sides.old pairs.old pair_sides.old has_pair.old }
    ensures figures { locals.new ≡ figures_after n values.now weights.now classes.now
        globals.old global_sides.old locals.old local_sides.old pairs.old pair_sides.old has_pair.old }
    ensures local_sides { local_sides.new ≡ local_sides_after n values.now weights.now classes.now
        globals.old global_sides.old locals.old local_sides.old pairs.old pair_sides.old has_pair.old }
    ensures pairs { pairs.new ≡ pairs_after n values.now weights.now classes.now
        globals.old global_sides.old locals.old local_sides.old pairs.old pair_sides.old has_pair.old }
    ensures pair_sides { pair_sides.new ≡ pair_sides_after n values.now weights.now classes.now
        globals.old global_sides.old locals.old local_sides.old pairs.old pair_sides.old has_pair.old }
    ensures having { has_pair.new ≡ has_pair_after n values.now weights.now classes.now
        globals.old global_sides.old locals.old local_sides.old pairs.old pair_sides.old has_pair.old }
{
    judges::judge_lent(
        n,
        &[
            (values.len(), Places::Zones),
            (weights.len(), Places::Pairs),
            (globals.len(), Places::Fixed(2)),
            (global_sides.len(), Places::Fixed(2)),
            (local_sides.len(), Places::Zones),
            (pairs.len(), Places::Fixed(18)),
            (pair_sides.len(), Places::Fixed(18)),
            (has_pair.len(), Places::Fixed(9)),
        ],
    )?;
    // The whole numbers are not asked for.
    let mut rows: [i64; 27] = [0; 27];
    let mut space: [i64; 64] = [0; 64];
    let mut side_space: [Side; 64] = [Side::Equal; 64];
    let sides = &mut side_space[..n];
    let report = coefficients::plain_report(
        n,
        values,
        weights,
        classes,
        &mut rows,
        &mut space[..n],
        locals,
        sides,
    )?;
    storing::put_sides(local_sides, sides);
    storing::put_pair(globals, global_sides, 0, report.whole.pair);
    storing::put_pairs(pairs, pair_sides, &report.classes);
    storing::put_having(has_pair, &report.classes);
    Ok(())
}

// The global Moran and Geary go to `globals`, 2 places, the local Moran of each zone to `locals`, n places, Moran and Geary of class 0, of
// class 1, .. to `pairs`, 18 places, where a class without weight leaves its two as they were, and to `has_pair`, 9 places, whether a class
// has weight, 1 or 0. Which way each was rounded goes to as many places beside: 0 where the float equals the ratio, 1 where it lies below and
// 2 where it lies above it.
#[unsafe(no_mangle)]
pub extern "C" fn dca_float_report(
    n: usize,
    values: &[i32],
    weights: &[u8],
    classes: &[u8],
    globals: &mut [u64],
    global_sides: &mut [u8],
    locals: &mut [u64],
    local_sides: &mut [u8],
    pairs: &mut [u64],
    pair_sides: &mut [u8],
    has_pair: &mut [u8],
) -> u8
    ensures number { result ≡ report_number n values.now weights.now classes.now
        globals.old global_sides.old locals.old local_sides.old pairs.old pair_sides.old has_pair.old }
    ensures globals { globals.new ≡ globals_after n values.now weights.now classes.now
        globals.old global_sides.old locals.old local_sides.old pairs.old pair_sides.old has_pair.old }
    ensures global_sides { global_sides.new ≡ global_sides_after n values.now weights.now classes.now
        globals.old global_sides.old locals.old local_sides.old pairs.old pair_sides.old has_pair.old }
    ensures figures { locals.new ≡ figures_after n values.now weights.now classes.now
        globals.old global_sides.old locals.old local_sides.old pairs.old pair_sides.old has_pair.old }
    ensures local_sides { local_sides.new ≡ local_sides_after n values.now weights.now classes.now
        globals.old global_sides.old locals.old local_sides.old pairs.old pair_sides.old has_pair.old }
    ensures pairs { pairs.new ≡ pairs_after n values.now weights.now classes.now
        globals.old global_sides.old locals.old local_sides.old pairs.old pair_sides.old has_pair.old }
    ensures pair_sides { pair_sides.new ≡ pair_sides_after n values.now weights.now classes.now
        globals.old global_sides.old locals.old local_sides.old pairs.old pair_sides.old has_pair.old }
    ensures having { has_pair.new ≡ has_pair_after n values.now weights.now classes.now
        globals.old global_sides.old locals.old local_sides.old pairs.old pair_sides.old has_pair.old }
{
    refusals::number_of(float_report_into(
        n,
        values,
        weights,
        classes,
        globals,
        global_sides,
        locals,
        local_sides,
        pairs,
        pair_sides,
        has_pair,
    ))
}
