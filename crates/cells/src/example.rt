// A worked example: a reserve layer over cells that the caller lends, as any register.
ghost use Rattle.std.specs.Prelude.{◌≡◌, length, take, drop, pos, Some, OnOk, OnErr};
ghost use Rattle.capacity.specs.Tests.{answered, said};
ghost use Rattle.capacity.specs.Faults.{told};
ghost use Rattle.capacity.specs.Meaning.{reserved};
ghost use Rattle.capacity.specs.Shapes.{network_of};
ghost use Rattle.cells.specs.Meaning.{unnoted};
ghost use Rattle.cells.specs.Cells.{side_in};
ghost use Rattle.cells.specs.Quotes.{quote_of, first_notice};

use crate::cell::Cell;
use crate::register::CellRegister;
use capacity::direction::Direction;
use capacity::example::{FIGURES, Flow, WAY, quote};
use capacity::faults::RegisterFault;
use capacity::map::ConnectorMap;
use capacity::register::Register;
use capacity::reserve::Reserve;

// What can flow from 0 to 1 in contract 3 before a take and after it, and the number by which
// a notice for contract 4 is then refused, if it is.
#[derive(Clone, Copy)]
pub struct Quote {
    pub before: Flow,
    pub later: Flow,
    pub refused: Option<u32>,
}

// NTC 200 and AAC 50 from 0 to 1, a take of 30, and the same figures for another contract.
fn ask<R: Register>(register: &mut R) -> Quote
    ensures { result ≡ quote_of (R.Register.meaning register.old) }
{
    let (before, later) = quote(register);
    let next = Direction { contract: 4, ..WAY };
    let answer = register.notice(next, FIGURES);
    Quote {
        before,
        later,
        refused: answer.err().map(|fault| fault.number()),
    }
}

// The same over any cells, whatever they held.
fn ask_in<'a>(map: &'a ConnectorMap, cells: &'a mut [Cell]) -> Quote
    ensures { result ≡ quote_of (reserved (unnoted (network_of map.now).joins (length cells.old)) (network_of map.now).kept) }
{
    let below = CellRegister::new(map, cells);
    let mut register = Reserve::new(below, map);
    ask(&mut register)
}

// With one cell and nothing kept back 150 can flow and 50 back; after the take 120 and 80.
// A second pair is refused by 14.
pub fn one_cell() -> Quote
    ensures { result ≡ record { before = record { there = Some (pos 150); back = Some (pos 50) }; later = record { there = Some (pos 120); back = Some (pos 80) }; refused = Some 14 } }
{
    let mut map = ConnectorMap::new();
    let _ = map.connect(0, 1, 0, 0);
    let mut cells = [Cell::new()];
    ask_in(&map, &mut cells)
}

// One pair noted in cells that were lent with anything in them: the first says what was noticed from 0 to 1, all others stay.
pub fn note_one(map: &ConnectorMap, cells: &mut [Cell]) -> Result<(), RegisterFault>
    ensures answer { said told result ≡ answered (first_notice (network_of map.now).joins (length cells.old)) }
    ensures first { OnOk result (side_in (take 1 cells.new) 3 0 1 ≡ record { ntc = 200; aac = 50; used = 0 }) }
    ensures others { drop 1 cells.new ≡ drop 1 cells.old }
    ensures refused { OnErr result (cells.new ≡ cells.old) }
{
    let mut register = CellRegister::new(map, cells);
    register.notice(WAY, FIGURES)
}
