// Which areas lead to which.
ghost use Rattle.std.specs.Prelude.{Decides};
ghost use Rattle.routes.specs.Grids.{Leads};
ghost use Rattle.matching.specs.Ways.{Leading, Told};

use routes::{Grid, Sizes};
use std::array;

// The sizes of the routes to each area, 0 to 15. That they are a grid's is a fact of one contract and no ghost field,
// whose fact may have one proof only: this one names a path for each size.
#[derive(Clone, Copy)]
pub(crate) struct Ways {
    pub(crate) to: [Sizes; 16],
}

impl Ways {
    // The ways of a grid, with sizes asked for each area: sixteen times in all.
    pub(crate) fn of(grid: &Grid) -> Ways
        ensures { Told (Leads grid.now) result.to 16 }
    {
        Ways {
            // `as`: an index below 16
            to: array::from_fn(|area| grid.sizes_to(area as u32)),
        }
    }

    // Whether a path leads from one area to another.
    pub(crate) fn leads(&self, from: u32, to: u32) -> bool
        ensures { Decides result (Leading self.now.to from to) }
    {
        self.to
            .get(to as usize)
            .is_some_and(|sizes| 0 < sizes.of(from))
    }
}
