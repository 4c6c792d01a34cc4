// The worked example as it runs, cells that are lent a second time, and what is left in those that were lent.
use crate::cell::Cell;
use crate::example::one_cell;
use crate::register::CellRegister;
use capacity::direction::Direction;
use capacity::example::{FIGURES, WAY};
use capacity::figures::Figures;
use capacity::map::ConnectorMap;
use capacity::register::Register;

#[test]
fn one_cell_for_one_pair(rt: HostRuntime) {
    let quote = one_cell();
    assert_eq!(rt; quote.before.there, Some(150));
    assert_eq!(rt; quote.before.back, Some(50));
    assert_eq!(rt; quote.later.there, Some(120));
    assert_eq!(rt; quote.later.back, Some(80));
    assert_eq!(rt; quote.refused, Some(14));
}

// What can flow before the first notice.
fn at_first<'a>(map: &'a ConnectorMap, cells: &'a mut [Cell]) -> Option<i32> {
    let mut register = CellRegister::new(map, cells);
    let first = register.atc(WAY);
    let figures = Figures {
        ntc: 7,
        ntc_back: 7,
        aac: 0,
        aac_back: 0,
    };
    let _ = register.notice(WAY.back(), figures);
    first
}

#[test]
fn lent_again(rt: HostRuntime) {
    let mut map = ConnectorMap::new();
    let _ = map.connect(0, 1, 0, 0);
    let mut cells = [Cell::new()];
    assert_eq!(rt; at_first(&map, &mut cells), Some(0));
    assert_eq!(rt; at_first(&map, &mut cells), Some(0));
}

// Two cells are lent, one of them with something in it; a refused notice leaves both, an accepted one sets the first.
#[test]
fn lent_back(rt: HostRuntime) {
    let mut map = ConnectorMap::new();
    let _ = map.connect(0, 1, 0, 0);
    let full = Cell {
        direction: WAY,
        ..Cell::new()
    };
    let mut cells = [Cell::new(), full];
    let mut register = CellRegister::new(&map, &mut cells);
    assert!(rt;
        register
            .notice(Direction { to: 2, ..WAY }, FIGURES)
            .is_err()
    );
    assert_eq!(rt; register.in_use().len(), 0);
    assert!(rt; register.notice(WAY.back(), FIGURES).is_ok());
    assert_eq!(rt; register.in_use().len(), 1);
    let [first, second] = cells;
    assert!(rt; first.direction == WAY.back());
    assert_eq!(rt; (first.pair.there.ntc, first.pair.back.aac), (200, 0));
    assert!(rt; second.direction == WAY);
    assert_eq!(rt; second.pair.there.ntc, 0);
}
