// Writing a cell: over its pair's, or in a spare one.
ghost use Rattle.std.specs.Prelude.{◌≡◌, ◌<◌, length, position};
ghost use Rattle.capacity.specs.Granted.{Served};
ghost use Rattle.capacity.specs.Pairs.{paired};
ghost use Rattle.capacity.specs.Shapes.{network_of};
ghost use Rattle.cells.specs.Cells.{names};
ghost use Rattle.cells.specs.Shapes.{in_use, cells_of};
ghost use Rattle.cells.specs.Lent.{lent_name, OneSet};

use crate::cell::Cell;
use crate::register::CellRegister;
use capacity::direction::Direction;
use capacity::pair::Pair;

impl<'a> CellRegister<'a> {
    // The first cell for the pair is replaced; with none, one more is in use.
    pub(crate) fn put(&mut self, direction: Direction, pair: Pair)
        requires served { Served (network_of self.old.map.now).joins direction.contract direction.from direction.to }
        requires room { None ≡ position (λ x. names x direction.contract direction.from direction.to) (in_use self.old) → self.old.count < length self.old.cells.now }
        ensures meaning { cells_of self.new ≡ paired (cells_of self.old) direction.contract direction.from direction.to pair.there pair.back }
        ensures set { OneSet self.old self.new direction pair.there pair.back }
        ensures same_cells { lent_name self.new ≡ lent_name self.old }
    {
        let count = self.count;
        let cell = Cell { direction, pair };
        match self.find(direction) {
            Some(i) => self.cells[i] = cell,
            None => {
                self.cells[count] = cell;
                self.count = count + 1;
            }
        }
    }
}
