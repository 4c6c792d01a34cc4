// A trade over two connectors of a full table, and what is then left.
use crate::{carry, least_along, open_grid};
use capacity::direction::Direction;
use capacity::faults::RegisterFault;
use capacity::figures::Figures;
use capacity::map::ConnectorMap;
use capacity::register::Register;
use capacity::table::FullTable;
use std::test::Fail;

const CONTRACT: u32 = 3;

fn way(from: u32, to: u32) -> Direction {
    Direction {
        contract: CONTRACT,
        from,
        to,
    }
}

fn notice(table: &mut FullTable, from: u32, to: u32, ntc: u32) -> Result<(), RegisterFault> {
    let figures = Figures {
        ntc,
        ntc_back: 0,
        aac: 0,
        aac_back: 0,
    };
    table.notice(way(from, to), figures)
}

// From 0 to 1 200 can flow and from 1 to 2 50.
fn line() -> FullTable {
    let mut map = ConnectorMap::new();
    let _ = map.connect(0, 1, 0, 0);
    let _ = map.connect(1, 2, 0, 0);
    let mut table = FullTable::new(&map);
    let _ = notice(&mut table, 0, 1, 200);
    let _ = notice(&mut table, 1, 2, 50);
    table
}

#[test]
fn trade_on_a_line(rt: HostRuntime) -> Result<(), Fail> {
    let mut table = line();
    let route = open_grid(&table, CONTRACT).route(0, 2).ok_or("no path")?;
    assert_eq!(rt; least_along(&table, CONTRACT, &route, 30), 30);
    assert_eq!(rt; least_along(&table, CONTRACT, &route, 80), 50);
    assert_eq!(rt; least_along(&table, 0, &route, 80), 0);
    carry(&mut table, CONTRACT, &route, 50);
    assert_eq!(rt; table.atc(way(0, 1)), Some(150));
    assert_eq!(rt; table.atc(way(1, 2)), Some(0));
    assert_eq!(rt; table.atc(way(2, 1)), Some(50));
    assert!(rt; open_grid(&table, CONTRACT).route(0, 2).is_none());
    assert!(rt; open_grid(&table, CONTRACT).route(2, 0).is_some());
    Ok(())
}
