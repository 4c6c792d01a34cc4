// Icebergs at work in the book.
use crate::places::Book;
use crate::rows::{Kind, Order, OrderTerms, Side};
use std::test::Fail;

fn sell(kind: Kind, limit: i32, quantity: u32, peak: u32, delta: u32) -> OrderTerms {
    OrderTerms {
        kind,
        side: Side::Sell,
        limit,
        quantity,
        peak,
        delta,
    }
}

#[test]
fn next_slices_are_the_newest(rt: HostRuntime) -> Result<(), Fail> {
    let mut book = Book::new();
    let berg = sell(Kind::Ice, 4_000, 120, 50, 100);
    assert!(rt; book.append(Order::entered(5, 1, 3, 0, &berg)).is_ok());
    let other = sell(Kind::Non, 4_500, 10, 0, 0);
    assert!(rt; book.append(Order::entered(6, 1, 3, 0, &other)).is_ok());
    book.trade(9, 5, 50);
    let second = book.order(1).ok_or("gone")?;
    assert_eq!(rt; (second.number, second.limit, second.shown), (5, 4_100, 50));
    book.trade(9, 5, 50);
    let third = book.order(1).ok_or("gone")?;
    assert_eq!(rt; (third.number, third.limit, third.shown), (5, 4_200, 20));
    book.trade(9, 5, 20);
    assert_eq!(rt; book.find(5), None);
    assert_eq!(rt; book.close(3), 1);
    Ok(())
}

#[test]
fn last_slice_in_range(rt: HostRuntime) -> Result<(), Fail> {
    assert!(rt; sell(Kind::Ice, 999_998, 100, 50, 1).check().is_ok());
    let third = sell(Kind::Ice, 999_998, 101, 50, 1).check();
    assert_eq!(rt; third.map_err(|fault| fault.number()), Err(7));
    Ok(())
}
