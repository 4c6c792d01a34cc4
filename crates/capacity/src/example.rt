// Worked examples: a pile of layers is again a register, and code on any register holds of it.
ghost use Rattle.std.specs.Prelude.{◌≡◌, pos, Some};
ghost use Rattle.capacity.specs.Meaning.{reserved};
ghost use Rattle.capacity.specs.Tables.{fresh};
ghost use Rattle.capacity.specs.Shapes.{network_of, table_of, layered};
ghost use Rattle.capacity.specs.Quotes.{flow_in, told_of, taken_from};

use crate::direction::Direction;
use crate::figures::Figures;
use crate::map::ConnectorMap;
use crate::register::Register;
use crate::reserve::Reserve;
use crate::table::FullTable;

// What can still flow on one connector, there and back.
#[derive(Clone, Copy)]
pub struct Flow {
    pub there: Option<i32>,
    pub back: Option<i32>,
}

// From 0 to 1 in contract 3.
pub const WAY: Direction = Direction {
    contract: 3,
    from: 0,
    to: 1,
};

// What can flow on that connector.
fn both_ways<R: Register>(register: &R) -> Flow
    ensures { result ≡ flow_in (R.Register.meaning register.now) }
{
    Flow {
        there: register.atc(WAY),
        back: register.atc(WAY.back()),
    }
}

// What is noticed of it.
pub const FIGURES: Figures = Figures {
    ntc: 200,
    ntc_back: 0,
    aac: 50,
    aac_back: 0,
};

// NTC 200 and AAC 50 from 0 to 1, then a take of 30: what can flow before the take and after it.
pub fn quote<R: Register>(register: &mut R) -> (Flow, Flow)
    ensures before { result.0 ≡ flow_in (told_of (R.Register.meaning register.old)) }
    ensures later { result.1 ≡ flow_in (taken_from (told_of (R.Register.meaning register.old))) }
    ensures after { R.Register.meaning register.new ≡ taken_from (told_of (R.Register.meaning register.old)) }
{
    let _ = register.notice(WAY, FIGURES);
    let before = both_ways(register);
    let _ = register.take(WAY, 30);
    (before, both_ways(register))
}

// A layer over a layer over a full table; each layer keeps back what its map says.
fn pile(inner: &ConnectorMap, outer: &ConnectorMap) -> Reserve<Reserve<FullTable>>
    ensures { layered (layered table_of) result ≡ reserved (reserved (fresh (network_of inner.now).joins) (network_of inner.now).kept) (network_of outer.now).kept }
{
    Reserve::new(Reserve::new(FullTable::new(inner), inner), outer)
}

// 150 can flow and 50 back; after the take, 120 and 80.
pub fn nothing_kept() -> (Flow, Flow)
    ensures { result ≡ (record { there = Some (pos 150); back = Some (pos 50) }, record { there = Some (pos 120); back = Some (pos 80) }) }
{
    let mut map = ConnectorMap::new();
    let _ = map.connect(0, 1, 0, 0);
    quote(&mut pile(&map, &map))
}

// The same with 20 kept back by one layer and 10 by the other, both from 0 to 1.
pub fn some_kept() -> (Flow, Flow)
    ensures { result ≡ (record { there = Some (pos 120); back = Some (pos 50) }, record { there = Some (pos 90); back = Some (pos 80) }) }
{
    let mut inner = ConnectorMap::new();
    let _ = inner.connect(0, 1, 20, 0);
    let mut outer = ConnectorMap::new();
    let _ = outer.connect(0, 1, 10, 0);
    quote(&mut pile(&inner, &outer))
}
