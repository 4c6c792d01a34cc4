// A route as a value: one to sixteen areas, in order.
ghost use Rattle.std.specs.Prelude.{ℕ, ◌<◌, ◌≤◌, slice_index};

// The most areas of a route: each area once.
pub const ROUTE_PLACES: usize = 16;

// The areas are the first `len` of `areas`: no heap, so an array of fixed length and not a Vec.
#[derive(Clone, Copy)]
pub struct Route {
    areas: [u32; ROUTE_PLACES],
    len: usize,
    ghost fits: { (1 ≤ len) × (len ≤ 16) × ((i : ℕ) → slice_index areas i < 16) },
}

impl Route {
    ghost use Rattle.std.specs.Prelude.{◌≡◌, [], ◌∷◌, ◌++◌, length};
    ghost use Rattle.routes.specs.Listed.{listed};

    // The route that begins in an area, and ends there so far.
    pub(crate) fn begin(area: u32) -> Route
        requires { area < 16 }
        ensures { listed result ≡ area ∷ [] }
    {
        let mut areas = [0; ROUTE_PLACES];
        areas[0] = area;
        Route { areas, len: 1 }
    }

    // One area more.
    pub(crate) fn push(&mut self, area: u32)
        requires area { area < 16 }
        requires room { length (listed self.old) < 16 }
        ensures { listed self.new ≡ listed self.old ++ (area ∷ []) }
    {
        self.areas[self.len] = area;
        self.len += 1;
    }

    // The areas of the route, the first to the last.
    pub fn areas(&self) -> &[u32]
        ensures listed { result.now ≡ listed self.now }
        ensures many { (1 ≤ length result.now) × (length result.now ≤ 16) }
        ensures within { (i : ℕ) → slice_index result.now i < 16 }
    {
        &self.areas[0..self.len]
    }
}
