// The full table is a register: every pair is noted from the start, and nothing is held.
ghost use Rattle.std.specs.Prelude.{◌≡◌, ◌≤◌};
ghost use Rattle.capacity.specs.Granted.{Served};
ghost use Rattle.capacity.specs.Pairs.{Shows, paired};
ghost use Rattle.capacity.specs.Tables.{fresh, place};
ghost use Rattle.capacity.specs.Shapes.{joins_of, network_of, table_of};
ghost use Rattle.capacity.specs.Soundness.{table_sound};
ghost use Rattle.capacity.specs.Memory.{Anything, anything_chains};

use crate::checks::{check_notice, check_take};
use crate::direction::Direction;
use crate::faults::RegisterFault;
use crate::figures::Figures;
use crate::map::ConnectorMap;
use crate::pair::Pair;
use crate::register::Register;
use crate::side::Side;
use crate::table::FullTable;

impl FullTable {
    // All figures and all use at nought.
    pub fn new(map: &ConnectorMap) -> FullTable
        ensures { table_of result ≡ fresh (network_of map.now).joins }
    {
        FullTable {
            links: map.links(),
            sides: [Side::NONE; 6144],
        }
    }

    // `Served` is a fact of the map and the direction together, so no field of either can hold it.
    fn pair(&self, direction: Direction) -> Pair
        requires { Served (joins_of self.now.links) direction.contract direction.from direction.to }
        ensures { Shows (table_of self.now) direction.contract direction.from direction.to result.there result.back }
    {
        let i = place(direction);
        let j = place(direction.back());
        Pair {
            there: self.sides[i],
            back: self.sides[j],
        }
    }

    fn put(&mut self, direction: Direction, pair: Pair)
        requires { Served (joins_of self.old.links) direction.contract direction.from direction.to }
        ensures { table_of self.new ≡ paired (table_of self.old) direction.contract direction.from direction.to pair.there pair.back }
    {
        let i = place(direction);
        let j = place(direction.back());
        self.sides[i] = pair.there;
        self.sides[j] = pair.back;
    }
}

// Contract by contract, in each by the first area and then by the second.
fn place(direction: Direction) -> usize
    requires { (direction.contract ≤ 23) × ((direction.from ≤ 15) × (direction.to ≤ 15)) }
    ensures { result ≡ place direction.contract direction.from direction.to }
{
    (256 * direction.contract + (16 * direction.from + direction.to)) as usize
}

// Its own four calls, as those of `CellRegister`: one impl for both needs `pair` and `put` public, and those ask something.
impl Register for FullTable {
    ghost meaning = { table_of };

    ghost sound = { table_sound };

    ghost leaves = { Anything };

    ghost chains = { anything_chains };

    fn atc(&self, direction: Direction) -> Option<i32> {
        if !self.links.serves(direction) {
            return None;
        }
        let pair = self.pair(direction);
        // Nothing is held. `as`, since figures and use are small: `try_from` would add a refusal that cannot be.
        Some(pair.atc(0) as i32)
    }

    fn held(&self, direction: Direction) -> Option<u32> {
        self.links.serves(direction).then_some(0)
    }

    fn take(&mut self, direction: Direction, quantity: u32) -> Result<(), RegisterFault> {
        let flow = self.atc(direction);
        check_take(direction, quantity, flow)?;
        let pair = self.pair(direction);
        self.put(direction, pair.taken(quantity));
        Ok(())
    }

    fn notice(&mut self, direction: Direction, figures: Figures) -> Result<(), RegisterFault> {
        let joined = self.links.joins(direction.from, direction.to);
        check_notice(direction, figures, joined, false)?;
        let pair = self.pair(direction);
        self.put(direction, pair.noticed(figures));
        Ok(())
    }
}
