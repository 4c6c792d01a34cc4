// An iceberg order as a value of its own, which keeps its rule.
ghost use Rattle.std.specs.Prelude.{◌≡◌, ◌≤◌, true};
ghost use Rattle.book.specs.Orders.{is_ice};

use crate::rows::Order;

// It shows at least 1 unit, and never more than its peak or what is open.
#[derive(Clone, Copy)]
pub(crate) struct Iceberg {
    pub(crate) order: Order,
    ghost iced: { is_ice order.kind ≡ true },
    ghost some: { 1 ≤ order.shown },
    ghost peaked: { order.shown ≤ order.peak },
    ghost within: { order.shown ≤ order.«open» },
}
