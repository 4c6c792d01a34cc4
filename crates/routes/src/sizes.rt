// How many areas the route from each area to one has.
ghost use Rattle.std.specs.Prelude.{◌≡◌, ℕ, ◌<◌};
ghost use Rattle.routes.specs.Grids.{Leads};
ghost use Rattle.routes.specs.Listed.{size_of};
ghost use Rattle.routes.specs.Paths.{Size};
ghost use Rattle.routes.specs.Laws.{Reach, Reaches};

use crate::grid::{AREAS, Grid};
use crate::levels::Levelled;

// The size where no path leads: a number and no Option, since it is the one that `Size` has there, and `0 <` asks for a path as plainly.
pub(crate) const NO_PATH: u32 = 0;

// For each area how many areas the route from it has, 0 where there is none.
#[derive(Clone, Copy)]
pub struct Sizes {
    pub(crate) sizes: [u32; 16],
}

// The sizes of the routes to a number that is no area.
const NO_SIZES: Sizes = Sizes {
    sizes: [NO_PATH; 16],
};

impl Sizes {
    // The size from this area; 0 for a number that is no area.
    pub fn of(&self, from: u32) -> u32
        ensures { result ≡ size_of self.now from }
    {
        self.sizes.get(from as usize).copied().unwrap_or(NO_PATH)
    }
}

impl Grid {
    // The sizes of the routes to this area.
    pub fn sizes_to(&self, to: u32) -> Sizes
        ensures sizes { (a : ℕ) → Size (Leads self.now) a to (size_of result a) }
        ensures reach { (a : ℕ) → (0 < size_of result a → Reach (Leads self.now) a to) × (Reach (Leads self.now) a to → 0 < size_of result a) }
        ensures laws { Reaches }
    {
        // As `towards` finds it, but before anything is made for the search.
        if to >= AREAS {
            return NO_SIZES;
        }
        match Levelled::towards(self, to) {
            Some(levelled) => levelled.levels,
            None => NO_SIZES,
        }
    }
}
