// Levels: how many areas it takes to get from each area to one, found from that one against the flow.
ghost use Rattle.std.specs.Prelude.{◌≡◌, ℕ, ◌<◌, ◌≤◌, MatchOption};
ghost use Rattle.routes.specs.Grids.{Leads};
ghost use Rattle.routes.specs.Levels.{AllLevels, lv, LowestOpen, Next, NoneOpen};

use crate::grid::{AREAS, Grid};
use crate::sizes::{NO_PATH, Sizes};
use std::array;

// The level of the area that all lead to.
const FIRST: u32 = 1;

// A grid, with the level of each area on the way to `to`, as far as levels are found. That all are is a fact of
// two contracts and no ghost field, whose fact may have one proof only: this one names a hop for each level.
#[derive(Clone, Copy)]
pub(crate) struct Levelled<'a> {
    grid: &'a Grid,
    pub(crate) to: u32,
    pub(crate) levels: Sizes,
}

impl<'a> Levelled<'a> {
    // All levels on the way to `to`; none where that is no area.
    // Fifteen sweeps over sixteen areas, each with at most sixteen tests: at most 3,840 tests.
    pub(crate) fn towards(grid: &'a Grid, to: u32) -> Option<Levelled<'a>>
        ensures { MatchOption result (16 ≤ to) (λ l. (l.grid.now ≡ grid.now) × (l.to ≡ to) × AllLevels (Leads grid.now) to l.levels.sizes) }
    {
        if to >= AREAS {
            return None;
        }
        let mut sizes = [NO_PATH; 16];
        sizes[to as usize] = FIRST;
        let mut levelled = Levelled {
            grid,
            to,
            levels: Sizes { sizes },
        };
        for level in FIRST..AREAS {
            levelled.levels = levelled.swept(level);
        }
        Some(levelled)
    }

    // The levels after a sweep, which gives the one above `level`.
    fn swept(&self, level: u32) -> Sizes
        requires { level < 16 }
        ensures { (a : ℕ) → a < 16 → Next (Leads self.now.grid.now) self.now.levels.sizes level a (lv result.sizes a) }
    {
        Sizes {
            // `as`: an index below 16
            sizes: array::from_fn(|a| self.next(a as u32, level)),
        }
    }

    // The level of an area after a sweep: the one above, where it has none yet and an area of this level is open from it.
    fn next(&self, a: u32, level: u32) -> u32
        requires { level < 16 }
        ensures { Next (Leads self.now.grid.now) self.now.levels.sizes level a result }
    {
        let old = self.levels.of(a);
        if old == NO_PATH && self.lowest(a, level).is_some() {
            level + 1
        } else {
            old
        }
    }

    // The lowest area of this level that is open from `a`.
    pub(crate) fn lowest(&self, a: u32, level: u32) -> Option<u32>
        ensures { MatchOption result (NoneOpen (Leads self.now.grid.now) self.now.levels.sizes a level) (λ b. LowestOpen (Leads self.now.grid.now) self.now.levels.sizes a level b) }
    {
        // By a name of its own, so that it is looked up once and not for each area.
        let grid = self.grid;
        (0..AREAS).find(|&b| grid.is_open(a, b) && self.levels.of(b) == level)
    }
}
