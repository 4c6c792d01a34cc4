// Slices: how a trade and a renewal change an order.
ghost use Rattle.std.specs.Prelude.{◌≡◌, ◌^◌, ◌<◌, if◌then◌else◌, ◌||◌, ◌==◌, true, false, Some, None};
ghost use Rattle.book.specs.Orders.{moved, beyond, lessened, next_slice, rests, shows};
ghost use Rattle.book.specs.Trades.{renewable};
ghost use Rattle.book.specs.Icebergs.{is_iceberg, IcedIfShown, row_if, row_left, is_showing, sliced};

use crate::iced::Iceberg;
use crate::rows::{Kind, Order, Side};

const LIMIT_MAX: i64 = 999_999;

// Whether a limit is out of range.
pub(crate) fn beyond(limit: i64) -> bool
    ensures { result ≡ beyond limit }
{
    !(-LIMIT_MAX..=LIMIT_MAX).contains(&limit)
}

// A limit moved by `by`, if it stays in range: it falls for a buy and rises for a sell.
pub(crate) fn moved(side: Side, limit: i32, by: u64) -> Option<i32>
    requires { by < 2 ^ 62 }
    ensures { result ≡ (if beyond (moved side limit by) then None else Some (moved side limit by)) }
{
    let limit = i64::from(limit);
    let moved = match side {
        Side::Buy => limit.saturating_sub_unsigned(by),
        Side::Sell => limit.saturating_add_unsigned(by),
    };
    if beyond(moved) {
        None
    } else {
        i32::try_from(moved).ok()
    }
}

impl Order {
    // Whether some of it is shown.
    pub(crate) fn shows(&self) -> bool
        ensures { result ≡ shows self.now }
    {
        0 < self.shown
    }

    // Whether it is one of the two orders with these numbers.
    pub(crate) fn is_one_of(&self, buy: u32, sell: u32) -> bool
        ensures { result ≡ (self.now.number == buy || self.now.number == sell) }
    {
        self.number == buy || self.number == sell
    }

    // Whether it rests once the round of this incoming order is done.
    pub(crate) fn rests(&self, incoming: u32) -> bool
        ensures { result ≡ rests incoming self.now }
    {
        self.kind != Kind::Ioc || self.number != incoming
    }

    // The row less what a trade took; an iceberg is traded as one.
    fn lessened(&self, quantity: u32) -> Order
        requires { is_iceberg self.now ≡ false }
        ensures { result ≡ lessened quantity self.now }
    {
        Order {
            open: self.open.saturating_sub(quantity),
            shown: self.shown.saturating_sub(quantity),
            ..*self
        }
    }

    // Trades `quantity` off it.
    pub(crate) fn trade(&mut self, quantity: u32)
        ensures after { self.new ≡ lessened quantity self.old }
        ensures iced { IcedIfShown self.old → IcedIfShown self.new }
    {
        *self = match Iceberg::of(self) {
            Some(berg) => match berg.trade(quantity) {
                Ok(rest) => rest.row(),
                Err(row) => row,
            },
            None => self.lessened(quantity),
        };
    }

    // Gives it its next slice, if its slice is used up, some is open, and it can show more at a limit in range; says whether it did.
    pub(crate) fn renew(&mut self) -> bool
        ensures answer { result ≡ renewable self.old }
        ensures after { self.new ≡ (if renewable self.old then next_slice self.old else self.old) }
        ensures iced { renewable self.old ≡ true → is_iceberg self.new ≡ true }
    {
        match Iceberg::renewed(self) {
            Some(next) => {
                *self = next.row();
                true
            }
            None => false,
        }
    }
}

impl Iceberg {
    // The iceberg in a row, if it is one: an Option and no TryFrom, as there is no fault to name.
    pub(crate) fn of(row: &Order) -> Option<Iceberg>
        ensures { row_if result ≡ (if is_iceberg row.now then Some row.now else None) }
    {
        if row.kind == Kind::Ice
            && 0 < row.shown
            && row.shown <= row.peak
            && row.shown <= row.open
        {
            Some(Iceberg { order: *row })
        } else {
            None
        }
    }

    // The row that it is written back as.
    pub(crate) fn row(self) -> Order
        ensures row { result ≡ self.order }
        ensures iced { is_iceberg result ≡ true }
    {
        self.order
    }

    // A row with the smaller of peak and open shown, its first slice or its next, if that makes it an iceberg.
    pub(crate) fn sliced(row: &Order) -> Option<Iceberg>
        ensures { row_if result ≡ (if is_iceberg (sliced row.now) then Some (sliced row.now) else None) }
    {
        Iceberg::of(&Order {
            shown: row.peak.min(row.open),
            ..*row
        })
    }

    // What a trade of `quantity` leaves: the iceberg while some is shown, and else the row, which is none until its next slice.
    pub(crate) fn trade(self, quantity: u32) -> Result<Iceberg, Order>
        ensures row { row_left result ≡ lessened quantity self.order }
        ensures showing { is_showing result ≡ shows (lessened quantity self.order) }
    {
        let row = self.order;
        if quantity < row.shown {
            let open = row.open - quantity;
            let shown = row.shown - quantity;
            Ok(Iceberg {
                order: Order { open, shown, ..row },
            })
        } else {
            let open = row.open.saturating_sub(quantity);
            Err(Order {
                open,
                shown: 0,
                ..row
            })
        }
    }

    // The next slice of a row that has run out.
    pub(crate) fn renewed(row: &Order) -> Option<Iceberg>
        ensures { row_if result ≡ (if renewable row.now then Some (next_slice row.now) else None) }
    {
        if row.shows() {
            return None;
        }
        let limit = moved(row.side, row.limit, u64::from(row.delta))?;
        Iceberg::sliced(&Order { limit, ..*row })
    }
}
