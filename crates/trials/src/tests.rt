// The worked rounds as they run, and the first with a layer that keeps something back.
use crate::over_cells::{play_over_cells, play_over_kept_cells};
use crate::rounds::{better_price, grant_calls, way_back};
use capacity::direction::Direction;
use capacity::map::ConnectorMap;
use capacity::register::Register;
use cells::cell::Cell;
use events::events::{Event, Traded};
use std::test::Fail;

// The number that a call is refused by.
fn refusal(event: Event) -> Option<u32> {
    match event {
        Event::Called {
            pass: _,
            call: _,
            answer: Err(fault),
        } => Some(fault.number()),
        _ => None,
    }
}

fn traded(event: Event) -> Option<Traded> {
    match event {
        Event::Stepped {
            pass: _,
            places: _,
            answer: Ok(trade),
        } => trade,
        _ => None,
    }
}

#[test]
fn grant_opens_the_way_back(rt: HostRuntime) -> Result<(), Fail> {
    let events = way_back(rt.alloc(), 7)?;
    assert_eq!(rt; events.len(), 10);
    assert_eq!(rt; refusal(events[6]), Some(13));
    let made = traded(events[8]).ok_or("no trade")?;
    assert_eq!(rt; made.trade.quantity, 50);
    assert_eq!(rt; made.trade.price, 4_000);
    assert_eq!(rt; made.trade.areas, 2);
    assert_eq!(rt; made.route[0], 1);
    assert_eq!(rt; made.route[1], 0);
    assert!(rt; traded(events[9]).is_none());
    Ok(())
}

// 100 were granted there and 50 traded back, so 50 are left either way.
#[test]
fn register_comes_back(rt: HostRuntime) {
    let mut map = ConnectorMap::new();
    let _ = map.connect(0, 1, 0, 0);
    let mut cells = [Cell::new()];
    let register = play_over_cells(rt.alloc(), 7, &map, &mut cells, &grant_calls()).register;
    let way = Direction {
        contract: 3,
        from: 0,
        to: 1,
    };
    assert_eq!(rt; register.atc(way), Some(50));
    assert_eq!(rt; register.atc(way.back()), Some(50));
}

#[test]
fn better_price_across_the_border(rt: HostRuntime) -> Result<(), Fail> {
    let events = better_price(rt.alloc(), 7)?;
    assert_eq!(rt; events.len(), 13);
    let made = traded(events[11]).ok_or("no trade")?;
    assert_eq!(rt; made.trade.buyer, 2);
    assert_eq!(rt; made.trade.quantity, 50);
    assert_eq!(rt; made.trade.price, 6_000);
    Ok(())
}

// With 1 kept back from 0 to 1 the request of 100 is refused too, and nothing is traded.
#[test]
fn grant_that_is_kept_back(rt: HostRuntime) -> Result<(), Fail> {
    let mut map = ConnectorMap::new();
    let _ = map.connect(0, 1, 1, 0);
    let mut cells = [Cell::new()];
    let events = play_over_kept_cells(rt.alloc(), 7, &map, &mut cells, &grant_calls()).events?;
    assert_eq!(rt; events.len(), 8);
    assert_eq!(rt; refusal(events[6]), Some(13));
    assert_eq!(rt; refusal(events[7]), Some(13));
    Ok(())
}
