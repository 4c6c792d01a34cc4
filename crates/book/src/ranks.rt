// Which order ranks above which.
ghost use Rattle.std.specs.Prelude.{Decides};
ghost use Rattle.book.specs.Places.{orders};
ghost use Rattle.book.specs.Ranks.{Ahead, RanksAbove, Strict};

use crate::places::Book;
use crate::rows::{Order, Side};

// Whether the order at place `i` ranks above the one at place `j`.
fn ahead(x: &Order, y: &Order, i: usize, j: usize) -> bool
    ensures { Decides result (Ahead x.now.side y.now.side x.now.limit y.now.limit i j) }
{
    match (x.side, y.side) {
        (Side::Buy, Side::Buy) => (y.limit, i) < (x.limit, j),
        (Side::Sell, Side::Sell) => (x.limit, i) < (y.limit, j),
        _ => false,
    }
}

impl Book {
    // Whether the order at place `i` ranks above the one at place `j`.
    pub fn better(&self, i: usize, j: usize) -> bool
        ensures answer { Decides result (RanksAbove (orders self.now) i j) }
        ensures strict { Strict (orders self.now) }
    {
        match (self.order(i), self.order(j)) {
            (Some(x), Some(y)) => ahead(&x, &y, i, j),
            _ => false,
        }
    }
}
