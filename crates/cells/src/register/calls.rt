// The cells are a register: nothing is held, and as many pairs can be noted as there are cells.
// Its own calls say of the cells that were lent what the trait cannot: which one each call sets, and that all others stay.
ghost use Rattle.std.specs.Prelude.{◌≡◌, length, OnOk, OnErr};
ghost use Rattle.capacity.specs.Tests.{answered, said};
ghost use Rattle.capacity.specs.Faults.{told};
ghost use Rattle.capacity.specs.Shapes.{network_of};
ghost use Rattle.cells.specs.Calls.{tests_of_take, after_take, tests_of_notice, after_notice};
ghost use Rattle.cells.specs.Meaning.{unnoted};
ghost use Rattle.cells.specs.Shapes.{in_use, cells_of};
ghost use Rattle.cells.specs.Lent.{lent, lent_name, SetByTake, SetByNotice, SpareStay, spare_chains};
ghost use Rattle.cells.specs.Soundness.{cells_sound};

use crate::cell::Cell;
use crate::register::CellRegister;
use capacity::checks::{check_notice, check_take};
use capacity::direction::Direction;
use capacity::faults::RegisterFault;
use capacity::figures::Figures;
use capacity::map::ConnectorMap;
use capacity::register::Register;

impl<'a> CellRegister<'a> {
    // None noted, whatever the cells hold, and all of them stay as they are lent.
    pub fn new(map: &'a ConnectorMap, cells: &'a mut [Cell]) -> CellRegister<'a>
        ensures meaning { cells_of result ≡ unnoted (network_of map.now).joins (length cells.old) }
        ensures none_in_use { result.count ≡ 0 }
        ensures lent { lent result ≡ cells.old }
        ensures same_cells { lent_name result ≡ cells.entry.ghost_name }
    {
        CellRegister {
            map,
            cells,
            count: 0,
        }
    }

    // The cells in use, in the order in which their pairs were first noted.
    pub fn in_use(&self) -> &[Cell]
        ensures { result.now ≡ in_use self.now }
    {
        let count = self.count.min(self.cells.len());
        &self.cells[..count]
    }

    // Ends the register, and gives all cells back as they then are.
    pub fn into_cells(self) -> &'a mut [Cell]
        ensures cells { result.now ≡ lent self.entry }
        ensures same_cells { result.ghost_name ≡ lent_name self.entry }
    {
        self.cells
    }
}

// Its own four calls, as those of `FullTable`: one impl for both needs `pair` and `put` public, and those ask something.
impl<'a> Register for CellRegister<'a> {
    ghost meaning = { cells_of };

    ghost sound = { cells_sound };

    ghost leaves = { SpareStay };

    ghost chains = { spare_chains };

    fn atc(&self, direction: Direction) -> Option<i32> {
        if !self.map.serves(direction) {
            return None;
        }
        let pair = self.pair(direction);
        // Nothing is held. `as`, since figures and use are small: `try_from` would add a refusal that cannot be.
        Some(pair.atc(0) as i32)
    }

    fn held(&self, direction: Direction) -> Option<u32> {
        self.map.serves(direction).then_some(0)
    }

    // As the trait's, and sets the first cell in use for the pair. A refusal writes in no cell.
    fn take(&mut self, direction: Direction, quantity: u32) -> Result<(), RegisterFault>
        ensures answer { said told result ≡ answered (tests_of_take (cells_of self.old) direction quantity) }
        ensures after { cells_of self.new ≡ after_take (cells_of self.old) direction quantity }
        ensures memory { SpareStay self.old self.new }
        ensures refused { OnErr result (self.new ≡ self.old) }
        ensures set { OnOk result (SetByTake self.old self.new direction quantity) }
        ensures count { self.new.count ≡ self.old.count }
        ensures same_cells { lent_name self.new ≡ lent_name self.old }
    {
        let flow = self.atc(direction);
        check_take(direction, quantity, flow)?;
        let pair = self.pair(direction);
        self.put(direction, pair.taken(quantity));
        Ok(())
    }

    // As the trait's, and sets the first cell in use for the pair, or the first spare one. A refusal writes in no cell.
    fn notice(&mut self, direction: Direction, figures: Figures) -> Result<(), RegisterFault>
        ensures answer { said told result ≡ answered (tests_of_notice (cells_of self.old) direction figures) }
        ensures after { cells_of self.new ≡ after_notice (cells_of self.old) direction figures }
        ensures memory { SpareStay self.old self.new }
        ensures refused { OnErr result (self.new ≡ self.old) }
        ensures set { OnOk result (SetByNotice self.old self.new direction figures) }
        ensures same_cells { lent_name self.new ≡ lent_name self.old }
    {
        let joined = self.map.joins(direction.from, direction.to);
        let full = self.lacks_cell(direction, figures);
        check_notice(direction, figures, joined, full)?;
        let pair = self.pair(direction);
        self.put(direction, pair.noticed(figures));
        Ok(())
    }
}
