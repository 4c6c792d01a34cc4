// Two worked rounds over a register in cells: one that a grant opens, and one that goes to the better price across a border.
ghost use Rattle.std.specs.Prelude.{◌≡◌, IfOk};
ghost use Rattle.events.specs.declared.calls.Call.TheVariants.{Enter, Request, Notice};
ghost use Rattle.trials.specs.Rounds.{way, hundred, entry, grant, border};
ghost use Rattle.trials.specs.Rows.{calls_in, events_of};

use crate::over_cells::play_over_cells;
use book::rows::{Kind, OrderTerms, Side};
use capacity::direction::Direction;
use capacity::figures::Figures;
use capacity::map::ConnectorMap;
use cells::cell::Cell;
use events::calls::Call;
use events::events::Event;
use session::entries::Entry;
use std::alloc::{AllocError, Global};

const CONTRACT: u32 = 3;

// From area 0 to another.
fn way(to: u32) -> Direction
    ensures { result ≡ way to }
{
    Direction {
        contract: CONTRACT,
        from: 0,
        to,
    }
}

// 100 can flow there, and nothing back.
fn notice(to: u32) -> Call
    ensures { result ≡ Notice (way to) hundred }
{
    Call::Notice {
        direction: way(to),
        figures: Figures {
            ntc: 100,
            ntc_back: 0,
            aac: 0,
            aac_back: 0,
        },
    }
}

fn order(number: u32, area: u32, side: Side, limit: i32) -> Call
    ensures { result ≡ Enter (entry number area side limit) }
{
    let terms = OrderTerms {
        kind: Kind::Non,
        side,
        limit,
        quantity: 50,
        peak: 0,
        delta: 0,
    };
    Call::Enter(Entry {
        number,
        member: 7,
        contract: CONTRACT,
        area,
        terms,
    })
}

fn request(quantity: u32) -> Call
    ensures { result ≡ Request (way 1) quantity }
{
    Call::Request {
        direction: way(1),
        quantity,
    }
}

// The calls of the round that a grant opens.
pub(crate) fn grant_calls() -> [Call; 5]
    ensures { result ≡ calls_in grant }
{
    [
        notice(1),
        order(1, 1, Side::Sell, 4_000),
        order(2, 0, Side::Buy, 5_000),
        request(101),
        request(100),
    ]
}

// With one cell: the request of 101 is refused by 13, and that of 100 lets 50 trade at 4,000.
pub fn way_back(heap: Global, number: u32) -> Result<Vec<Event>, AllocError>
    ensures { IfOk result (λ events. events.items ≡ events_of number grant) }
{
    let mut map = ConnectorMap::new();
    let _ = map.connect(0, 1, 0, 0);
    let mut cells = [Cell::new()];
    play_over_cells(heap, number, &map, &mut cells, &grant_calls()).events
}

// The calls of the round that goes across the border.
fn border_calls() -> [Call; 6]
    ensures { result ≡ calls_in border }
{
    [
        notice(1),
        notice(2),
        order(1, 1, Side::Buy, 5_000),
        order(2, 2, Side::Buy, 6_000),
        order(3, 1, Side::Sell, 5_500),
        order(4, 0, Side::Sell, 4_500),
    ]
}

// With two cells: the last sell trades 50 at 6,000.
pub fn better_price(heap: Global, number: u32) -> Result<Vec<Event>, AllocError>
    ensures { IfOk result (λ events. events.items ≡ events_of number border) }
{
    let mut map = ConnectorMap::new();
    let _ = map.connect(0, 1, 0, 0);
    let _ = map.connect(0, 2, 0, 0);
    let mut cells = [Cell::new(), Cell::new()];
    play_over_cells(heap, number, &map, &mut cells, &border_calls()).events
}
