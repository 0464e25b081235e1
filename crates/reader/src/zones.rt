// What the later sections know of the values.
ghost use Rattle.std.specs.Prelude.{◌≤◌};

// How many zones an image has, as its values tell once their count is judged: the later sections take this, and no loose number.
#[derive(Clone, Copy)]
pub(super) struct Zones {
    pub(super) n: usize,
    ghost some: { 2 ≤ n },
    ghost few: { n ≤ 64 },
}
