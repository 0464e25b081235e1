// What was judged, with the facts that the judges found, and the parts of it that are used.
ghost use Rattle.std.specs.Prelude.{◌≡◌, ◌*◌, ◌≤◌, take};
ghost use Rattle.image.specs.Writer.{listed};
ghost use Rattle.writer.specs.Steps.{Sized, Storable, Tabled};

use image::{Given, Lists};

// Lists of their exact lengths, of 2 to 64 zones.
#[derive(Clone, Copy)]
pub(super) struct SizedLists<'a> {
    pub(super) given: Given,
    pub(super) lists: Lists<'a>,
    ghost sized: { Sized given (listed lists) },
}

// A job that broke no rule, and how many joins it has.
#[derive(Clone, Copy)]
pub(super) struct CountedJob<'a> {
    pub(super) job: SizedLists<'a>,
    pub(super) joins: usize,
    ghost storable: { Storable job.given (listed job.lists) joins },
}

// The weights between 2 to 64 zones, a row of n for each zone.
// kept, account and joins have the like, private too; one for all would be a public struct that each caller must prove: no plainer.
#[derive(Clone, Copy)]
pub(super) struct Table<'a> {
    pub(super) n: usize,
    pub(super) weights: &'a [u8],
    ghost tabled: { Tabled weights.now n },
}

// The first entries of each list, as many as the counts say. A count that may be too high is judged before its part is taken.
impl<'a> SizedLists<'a> {
    pub(super) fn values(&self) -> &'a [i32]
        ensures { result.now ≡ take self.now.given.values self.now.lists.values.now }
    {
        &self.lists.values[..self.given.values]
    }

    pub(super) fn categories(&self) -> &'a [u8]
        requires { self.now.given.categories ≤ 64 }
        ensures { result.now ≡ take self.now.given.categories self.now.lists.categories.now }
    {
        &self.lists.categories[..self.given.categories]
    }

    // The weights, with their n.
    pub(super) fn table(&self) -> Table<'a>
        ensures n { result.n ≡ self.now.given.values }
        ensures weights { result.weights.now
            ≡ take (self.now.given.values * self.now.given.values) self.now.lists.weights.now }
    {
        let n = self.given.values;
        let pairs = n * n;
        Table {
            n,
            weights: &self.lists.weights[..pairs],
        }
    }

    // Two coordinates each.
    pub(super) fn places(&self) -> &'a [i32]
        requires { self.now.given.places ≤ 64 }
        ensures { result.now ≡ take (2 * self.now.given.places) self.now.lists.places.now }
    {
        &self.lists.places[..2 * self.given.places]
    }

    pub(super) fn bands(&self) -> &'a [u32]
        requires { self.now.given.bands ≤ 8 }
        ensures { result.now ≡ take self.now.given.bands self.now.lists.bands.now }
    {
        &self.lists.bands[..self.given.bands]
    }

    // n numbers each.
    pub(super) fn shuffles(&self) -> &'a [u8]
        requires { self.now.given.shuffles ≤ 499 }
        ensures { result.now
            ≡ take (self.now.given.shuffles * self.now.given.values) self.now.lists.shuffles.now }
    {
        &self.lists.shuffles[..self.given.shuffles * self.given.values]
    }
}
