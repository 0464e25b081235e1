// What is put of the zones kept into a list that fits: their numbers, or a mark for each zone. Where some value is not returned the weights
// that count are made first, in functions of their own, since the common case need not clear room for them.
ghost use Rattle.std.specs.Prelude.{◌≡◌, cond, length};
ghost use Rattle.whole.specs.Table.{table, over};
ghost use Rattle.kept.specs.Kept.{keeps, kept_zones, kept_count};
ghost use Rattle.kept.specs.Returned.{reduced};

use crate::marking::Weights;
use crate::returned;

// The zones kept go to the front of `zones`, rising; answers how many they are.
pub(super) fn put_kept(weights: &Weights, zones: &mut [u8]) -> usize
    requires { length zones.old ≡ 64 }
    ensures value { result ≡ kept_count weights.now.n weights.now.rows.now }
    ensures zones_after { zones.new ≡ over (kept_zones weights.now.n weights.now.rows.now) zones.old }
{
    let columns = weights.columns();
    let mut many: usize = 0; // of the zones kept: enumerate would number them, and not say how many they are
    for i in 0..weights.n {
        if weights.touches(&columns, i) {
            zones[many] = i as u8; // no From leads here from a usize; TryFrom and an unwrap is no plainer
            many += 1;
        }
    }
    many
}

// A mark for each zone: 1 where it is kept, else 0.
pub(super) fn put_marks(weights: &Weights, marks: &mut [u8])
    requires { length marks.old ≡ weights.now.n }
    ensures { marks.new ≡ table (λ i. cond (keeps weights.now.n weights.now.rows.now i) 1 0) weights.now.n }
{
    let columns = weights.columns();
    for (i, mark) in marks.iter_mut().enumerate() {
        *mark = u8::from(weights.touches(&columns, i));
    }
}

// The zones kept by the weights that count.
pub(super) fn put_kept_counting(values: &[i32], weights: &Weights, zones: &mut [u8]) -> usize
    requires values_len { length values.now ≡ weights.now.n }
    requires zones_len { length zones.old ≡ 64 }
    ensures value { result ≡ kept_count weights.now.n (reduced weights.now.n values.now weights.now.rows.now) }
    ensures zones_after { zones.new
        ≡ over (kept_zones weights.now.n (reduced weights.now.n values.now weights.now.rows.now)) zones.old }
{
    let mut space: [u8; 4096] = rooms::room();
    put_kept(&returned::reduce_into(values, weights, &mut space), zones)
}

// A mark for each zone that is kept by the weights that count.
pub(super) fn put_marks_counting(values: &[i32], weights: &Weights, marks: &mut [u8])
    requires values_len { length values.now ≡ weights.now.n }
    requires marks_len { length marks.old ≡ weights.now.n }
    ensures { marks.new
        ≡ table (λ i. cond (keeps weights.now.n (reduced weights.now.n values.now weights.now.rows.now) i) 1 0) weights.now.n }
{
    let mut space: [u8; 4096] = rooms::room();
    put_marks(&returned::reduce_into(values, weights, &mut space), marks);
}
