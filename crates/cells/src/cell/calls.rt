// Making a cell to lend, and telling which pair one is for.
ghost use Rattle.std.specs.Prelude.{◌≡◌, if◌then◌else◌};
ghost use Rattle.capacity.specs.Directions.{is_way_in};
ghost use Rattle.capacity.specs.Sides.{no_side};
ghost use Rattle.cells.specs.Cells.{names};

use crate::cell::Cell;
use capacity::direction::Direction;
use capacity::pair::Pair;

impl Cell {
    // A cell to lend, with nothing in it.
    pub fn new() -> Cell
        ensures pair { (result.direction.contract ≡ 0) × ((result.direction.from ≡ 0) × (result.direction.to ≡ 0)) }
        ensures sides { (result.pair.there ≡ no_side) × (result.pair.back ≡ no_side) }
    {
        Cell {
            direction: Direction {
                contract: 0,
                from: 0,
                to: 0,
            },
            pair: Pair::none(),
        }
    }

    // Whether the cell is for the pair, either way round.
    pub(crate) fn names(self, direction: Direction) -> bool
        ensures { result ≡ names self direction.contract direction.from direction.to }
    {
        direction == self.direction || direction == self.direction.back()
    }

    // The cell's pair, seen in the direction given.
    pub(crate) fn pair(self, direction: Direction) -> Pair
        ensures there { result.there ≡ (if is_way_in self.direction.contract self.direction.from self.direction.to direction.contract direction.from direction.to then self.pair.there else self.pair.back) }
        ensures back { result.back ≡ (if is_way_in self.direction.contract self.direction.from self.direction.to direction.contract direction.from direction.to then self.pair.back else self.pair.there) }
    {
        if direction == self.direction {
            self.pair
        } else {
            self.pair.turned()
        }
    }
}
