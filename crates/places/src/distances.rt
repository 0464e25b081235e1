// Zones that were judged and accepted: the squared distance of two, which can exceed 32 bits, and the circle of two.
ghost use Rattle.std.specs.Prelude.{◌≡◌, false, ◌<◌, length};
ghost use Rattle.whole.specs.Search.{any_beyond};
ghost use Rattle.places.specs.Places.{squared_distance};
ghost use Rattle.places.specs.Gabriel.{in_circle};
ghost use Rattle.places.specs.Steps.{coordinates};

// Each zone by its two coordinates. Two zones are named by their numbers.
#[derive(Clone, Copy)]
pub(super) struct ZonePlaces<'a> {
    pub(super) zones: &'a [[i32; 2]],
    ghost near: { any_beyond 30000 (coordinates zones.now) ≡ false },
}

impl ZonePlaces<'_> {
    // The squared distance of zones a and b, at most 7,200,000,000.
    pub(super) fn squared_distance(&self, a: usize, b: usize) -> i64
        requires a_bound { a < length self.now.zones.now }
        requires b_bound { b < length self.now.zones.now }
        ensures { result ≡ squared_distance (coordinates self.now.zones.now) a b }
    {
        let (first, second) = (self.zones[a], self.zones[b]);
        let across = i64::from(first[0]) - i64::from(second[0]);
        let up = i64::from(first[1]) - i64::from(second[1]);
        across * across + up * up
    }

    // Whether zone c is inside or on the circle of zones a and b, whose squared distance is given.
    pub(super) fn in_circle(&self, a: usize, b: usize, distance: i64, c: usize) -> bool
        requires a_bound { a < length self.now.zones.now }
        requires b_bound { b < length self.now.zones.now }
        requires c_bound { c < length self.now.zones.now }
        requires distance_value { distance ≡ squared_distance (coordinates self.now.zones.now) a b }
        ensures { result ≡ in_circle (squared_distance (coordinates self.now.zones.now)) a b c }
    {
        self.squared_distance(a, c) + self.squared_distance(b, c) <= distance
    }
}
