// Which pair is chosen, in small books.
use crate::choice::choose;
use crate::round::Round;
use book::places::Book;
use book::rows::{Kind, Order, Side};
use routes::Grid;
use std::test::Fail;

fn order(number: u32, side: Side, area: u32, limit: i32) -> Order {
    Order {
        number,
        member: 1,
        contract: 3,
        side,
        area,
        kind: Kind::Non,
        limit,
        open: 50,
        shown: 50,
        peak: 0,
        delta: 0,
    }
}

fn regular(incoming: u32) -> Round {
    Round::Regular {
        contract: 3,
        incoming,
    }
}

#[test]
fn highest_buy_first(rt: HostRuntime) -> Result<(), Fail> {
    let mut grid = Grid::new();
    grid.set(0, 1, true);
    grid.set(0, 2, true);
    let mut book = Book::new();
    let _ = book.append(order(1, Side::Buy, 1, 5_000));
    let _ = book.append(order(2, Side::Buy, 2, 6_000));
    let _ = book.append(order(3, Side::Sell, 1, 5_500));
    let _ = book.append(order(4, Side::Sell, 0, 4_500));
    let pair = choose(&book, &grid, regular(4)).ok_or("none")?;
    assert_eq!(rt; (pair.buy, pair.sell), (1, 3));
    assert!(rt; choose(&book, &grid, regular(3)).is_none());
    Ok(())
}

#[test]
fn only_along_a_path(rt: HostRuntime) -> Result<(), Fail> {
    let mut grid = Grid::new();
    grid.set(0, 1, true);
    let mut book = Book::new();
    let _ = book.append(order(1, Side::Sell, 1, 4_000));
    let _ = book.append(order(2, Side::Buy, 0, 5_000));
    assert!(rt; choose(&book, &grid, Round::Batch { contract: 3 }).is_none());
    grid.set(1, 0, true);
    let pair = choose(&book, &grid, Round::Batch { contract: 3 }).ok_or("none")?;
    assert_eq!(rt; (pair.buy, pair.sell), (1, 0));
    assert!(rt; choose(&book, &grid, Round::Batch { contract: 4 }).is_none());
    Ok(())
}

// No session's book does so, but `choose` takes any book.
#[test]
fn book_with_one_number_twice(rt: HostRuntime) -> Result<(), Fail> {
    let mut grid = Grid::new();
    grid.set(0, 1, true);
    let mut book = Book::new();
    let _ = book.append(order(1, Side::Sell, 0, 4_500));
    let _ = book.append(order(2, Side::Buy, 1, 5_000));
    let _ = book.append(order(3, Side::Sell, 0, 4_000));
    let _ = book.append(order(4, Side::Buy, 1, 6_000));
    let _ = book.append(order(2, Side::Buy, 1, 5_500));
    let of_sell = choose(&book, &grid, regular(1)).ok_or("none")?;
    assert_eq!(rt; (of_sell.buy, of_sell.sell), (3, 0));
    let of_buy = choose(&book, &grid, regular(2)).ok_or("none")?;
    assert_eq!(rt; (of_buy.buy, of_buy.sell), (4, 2));
    assert!(rt; choose(&book, &grid, regular(5)).is_none());
    Ok(())
}
