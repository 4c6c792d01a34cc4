// The book: the orders of all contracts, oldest first.
ghost use Rattle.std.specs.Prelude.{◌≡◌, ◌<◌, ◌≤◌, Bool, [], ◌∷◌, ◌++◌, length, None, slice_index_or, slice_set};
ghost use Rattle.std.specs.Fn.{FnReturnsAt};
ghost use Rattle.std.specs.List.{filter, AllByRecursion};
ghost use Rattle.book.specs.Icebergs.{Iced};
ghost use Rattle.book.specs.Orderly.{Fit, Orderly};
ghost use Rattle.book.specs.Orders.{rests};
ghost use Rattle.book.specs.Refusals.{told};
ghost use Rattle.book.specs.Ranks.{blank, order_at};
ghost use Rattle.book.specs.declared.rows.Order.{Order};
ghost use Rattle.book.specs.Places.{orders, append_refusal, appended, nth, without, place, Placed, numbered, numbered_of, of_contract, not_of_contract};

use crate::faults::BookFault;
use crate::rows::{Kind, Order, Side};

pub const PLACES: usize = 128;

// An order's place is its age: it stands in the first `len` rows, after all older ones.
// No heap (docs/DECISIONS.md, Forms), so the rows are an array with a length, in a plain struct.
// That it is Orderly is no ghost field: `append` takes any order, and may ask no more of its callers.
#[derive(Clone, Copy)]
pub struct Book {
    pub(crate) rows: [Order; PLACES],
    pub(crate) len: usize,
}

const NO_ORDER: Order = Order {
    number: 0,
    member: 0,
    contract: 0,
    side: Side::Buy,
    area: 0,
    kind: Kind::Non,
    limit: 0,
    open: 0,
    shown: 0,
    peak: 0,
    delta: 0,
};

impl Book {
    // A book with no order.
    pub fn new() -> Book
        ensures { orders result ≡ [] }
    {
        Book {
            rows: [NO_ORDER; PLACES],
            len: 0,
        }
    }

    // How many orders there are.
    pub fn len(&self) -> usize
        ensures count { result ≡ length (orders self.now) }
        ensures room { result ≤ 128 }
    {
        self.len.min(PLACES)
    }

    // The orders as they stand in the rows.
    pub(crate) fn in_use(&self) -> &[Order]
        ensures items { result.now ≡ orders self.now }
        ensures room { length result.now ≤ 128 }
    {
        &self.rows[..self.len()]
    }

    // The order at a place.
    pub fn order(&self, at: usize) -> Option<Order>
        ensures { result ≡ nth (orders self.now) at }
    {
        self.in_use().get(at).copied()
    }

    // The place of the order with this number, the oldest if there were several.
    pub fn find(&self, number: u32) -> Option<usize>
        ensures answer { result ≡ place (numbered number) (orders self.now) }
        ensures placed { Placed (numbered number) (orders self.now) result }
    {
        self.in_use().iter().position(|row| row.number == number)
    }

    // The place of the order with this number and member.
    // The two stay apart: entries and changes hold them among others, and a struct of the two would be made for a withdrawal alone.
    pub fn find_of(&self, number: u32, member: u32) -> Option<usize>
        ensures answer { result ≡ place (numbered_of number member) (orders self.now) }
        ensures placed { Placed (numbered_of number member) (orders self.now) result }
    {
        self.in_use()
            .iter()
            .position(|row| row.number == number && row.member == member)
    }

    // Makes `order` the newest, if there is a place.
    pub fn append(&mut self, order: Order) -> Result<(), BookFault>
        ensures answer { told result ≡ append_refusal (orders self.old) }
        ensures after { orders self.new ≡ appended (orders self.old) order }
        ensures orderly { Orderly (orders self.old) → Fit order → place (numbered order.number) (orders self.old) ≡ None → Orderly (orders self.new) }
    {
        let n = self.len();
        if n < PLACES {
            self.rows[n] = order;
            self.len = n + 1;
            Ok(())
        } else {
            Err(BookFault::Full)
        }
    }

    // Takes the order at `at` out; where there is none, nothing changes.
    pub fn remove(&mut self, at: usize)
        ensures after { orders self.new ≡ without (orders self.old) at }
        ensures orderly { Orderly (orders self.old) → Orderly (orders self.new) }
        ensures iced { AllByRecursion Iced (orders self.old) → AllByRecursion Iced (orders self.new) }
    {
        let n = self.len();
        if at < n {
            self.rows.copy_within(at + 1..n, at);
            self.len = n - 1;
        }
    }

    // Makes the order at `at` the newest.
    pub(crate) fn make_newest(&mut self, at: usize)
        requires { at < length (orders self.old) }
        ensures { orders self.new ≡ without (orders self.old) at ++ order_at (orders self.old) at ∷ [] }
    {
        let n = self.len();
        self.rows[at..n].rotate_left(1);
    }

    // Moves the row at `from` to `to`, if it does not stand there.
    fn move_row(&mut self, from: usize, to: usize)
        requires down { to ≤ from }
        requires within { from < 128 }
        ensures rows { self.new.rows ≡ slice_set self.old.rows to (slice_index_or self.old.rows from blank) }
        ensures count { self.new.len ≡ self.old.len }
    {
        if to < from {
            self.rows[to] = self.rows[from];
        }
    }

    // Keeps the orders that pass a test, each moved at most once; where all do, nothing is moved.
    pub(crate) fn retain<F: Fn(&Order) -> bool>(&mut self, keep: F)
        requires { F.IsAlwaysCallable keep }
        ensures { (p : Order → Bool) → ((o : Order) (r : Bool) → FnReturnsAt F.Fn keep o r → r ≡ p o) → orders self.new ≡ filter p (orders self.old) }
    {
        let mut kept = 0;
        for at in 0..self.len() {
            if keep(&self.rows[at]) {
                self.move_row(at, kept);
                kept += 1;
            }
        }
        self.len = kept;
    }

    // Takes the order of this number out if it is IOC, which never rests.
    pub fn drop_ioc(&mut self, incoming: u32)
        ensures after { orders self.new ≡ filter (rests incoming) (orders self.old) }
        ensures orderly { Orderly (orders self.old) → Orderly (orders self.new) }
        ensures iced { AllByRecursion Iced (orders self.old) → AllByRecursion Iced (orders self.new) }
    {
        self.retain(|row| row.rests(incoming));
    }

    // Takes the orders of a contract out and answers how many there were.
    pub fn close(&mut self, contract: u32) -> usize
        ensures answer { result ≡ length (filter (of_contract contract) (orders self.old)) }
        ensures after { orders self.new ≡ filter (not_of_contract contract) (orders self.old) }
        ensures orderly { Orderly (orders self.old) → Orderly (orders self.new) }
        ensures iced { AllByRecursion Iced (orders self.old) → AllByRecursion Iced (orders self.new) }
    {
        let before = self.len();
        self.retain(|row| row.contract != contract);
        before - self.len()
    }
}
