// Reading the cells: the place of a pair, and what is noted of it.
ghost use Rattle.std.specs.Prelude.{◌≡◌, true, false, position};
ghost use Rattle.capacity.specs.Answers.{large};
ghost use Rattle.capacity.specs.Granted.{Served};
ghost use Rattle.capacity.specs.Pairs.{Shows};
ghost use Rattle.capacity.specs.Shapes.{network_of};
ghost use Rattle.capacity.specs.Tables.{on};
ghost use Rattle.cells.specs.Cells.{names};
ghost use Rattle.cells.specs.Shapes.{in_use, cells_of, no_cell_left};
ghost use Rattle.cells.specs.Lent.{side_of, side_back};

use crate::register::CellRegister;
use capacity::direction::Direction;
use capacity::figures::Figures;
use capacity::pair::Pair;

impl<'a> CellRegister<'a> {
    // The place of the first cell in use for the pair.
    pub(crate) fn find(&self, direction: Direction) -> Option<usize>
        ensures { result ≡ position (λ x. names x direction.contract direction.from direction.to) (in_use self.now) }
    {
        self.cells
            .iter()
            .take(self.count)
            .position(|cell| cell.names(direction))
    }

    // Whether the pair has no cell, and none is spare.
    pub(crate) fn full(&self, direction: Direction) -> bool
        ensures { result ≡ no_cell_left self.now direction }
    {
        self.find(direction).is_none() && self.count >= self.cells.len()
    }

    // Whether a notice that nothing else refuses finds no cell; the cells are gone through for such a one alone.
    pub(crate) fn lacks_cell(&self, direction: Direction, figures: Figures) -> bool
        ensures { on (network_of self.now.map.now).joins direction.contract direction.from direction.to ≡ true
            → large figures ≡ false → result ≡ no_cell_left self.now direction }
    {
        self.map.serves(direction) && !figures.large() && self.full(direction)
    }

    // What the cells say of a pair, or nought.
    // `Served` is a fact of the map and the direction together, so no field of either can hold it.
    pub(crate) fn pair(&self, direction: Direction) -> Pair
        requires { Served (network_of self.now.map.now).joins direction.contract direction.from direction.to }
        ensures shows { Shows (cells_of self.now) direction.contract direction.from direction.to result.there result.back }
        ensures there { result.there ≡ side_of self.now direction }
        ensures back { result.back ≡ side_back self.now direction }
    {
        let Some(i) = self.find(direction) else {
            return Pair::none();
        };
        let cell = self.cells[i];
        cell.pair(direction)
    }
}
