// The check of an order's terms.
ghost use Rattle.std.specs.Prelude.{◌≡◌, None};
ghost use Rattle.book.specs.Orders.{entered};
ghost use Rattle.book.specs.Icebergs.{Iced, IcedIfShown, with_first_slice};
ghost use Rattle.book.specs.Orderly.{Fit};
ghost use Rattle.book.specs.Refusals.{told};
ghost use Rattle.book.specs.Terms.{size_refusal, bounds_refusal, slice_refusal, ill_sliced, refusal};

use crate::faults::BookFault;
use crate::iced::Iceberg;
use crate::rows::{Kind, Order, OrderTerms};
use crate::slices::{beyond, moved};

const QUANTITY_MIN: u32 = 1;

const QUANTITY_MAX: u32 = 9_999;

const PEAK_MIN: u32 = 50;

const DELTA_MAX: u32 = 500;

// Refuses a limit, then a quantity, out of range, whatever else an order has.
pub fn check_bounds(limit: i32, quantity: u32) -> Result<(), BookFault>
    ensures { told result ≡ bounds_refusal limit quantity }
{
    if beyond(i64::from(limit)) {
        Err(BookFault::Limit)
    } else if !(QUANTITY_MIN..=QUANTITY_MAX).contains(&quantity) {
        Err(BookFault::Quantity)
    } else {
        Ok(())
    }
}

impl OrderTerms {
    // Whether peak and delta do not go with the kind, the quantity or the limit.
    fn ill_sliced(&self) -> bool
        ensures { result ≡ ill_sliced self.now.kind self.now }
    {
        if self.kind != Kind::Ice {
            return self.peak != 0 || self.delta != 0;
        }
        if self.peak < PEAK_MIN || self.quantity < self.peak || DELTA_MAX < self.delta {
            return true;
        }
        let further = (self.quantity - 1) / self.peak;
        moved(
            self.side,
            self.limit,
            u64::from(self.delta) * u64::from(further),
        )
        .is_none()
    }

    // Refuses a limit, then a quantity, out of range.
    pub fn check_size(&self) -> Result<(), BookFault>
        ensures { told result ≡ size_refusal self.now }
    {
        check_bounds(self.limit, self.quantity)
    }

    // Refuses a peak or a delta that does not go with the rest, or a last slice whose limit is out of range.
    pub fn check_slices(&self) -> Result<(), BookFault>
        ensures { told result ≡ slice_refusal self.now }
    {
        if self.ill_sliced() {
            Err(BookFault::Slices)
        } else {
            Ok(())
        }
    }

    // All of it, the lowest number first.
    pub fn check(&self) -> Result<(), BookFault>
        ensures { told result ≡ refusal self.now }
    {
        self.check_size()?;
        self.check_slices()
    }
}

impl Order {
    // The row with what it shows at first, an iceberg by way of the iceberg.
    fn with_first_slice(&self) -> Order
        ensures order { result ≡ with_first_slice self.now }
        ensures iced { IcedIfShown result }
    {
        match self.kind {
            Kind::Non | Kind::Ioc => Order {
                shown: self.open,
                ..*self
            },
            Kind::Ice => match Iceberg::sliced(self) {
                Some(berg) => berg.row(),
                None => Order { shown: 0, ..*self },
            },
        }
    }

    // An order as it is entered, with its first slice.
    pub fn entered(number: u32, member: u32, contract: u32, area: u32, terms: &OrderTerms) -> Order
        ensures order { result ≡ entered number member contract area terms.now }
        ensures fit { refusal terms.now ≡ None → Fit result }
        ensures iced { refusal terms.now ≡ None → Iced result }
    {
        let row = Order {
            number,
            member,
            contract,
            side: terms.side,
            area,
            kind: terms.kind,
            limit: terms.limit,
            open: terms.quantity,
            shown: 0,
            peak: terms.peak,
            delta: terms.delta,
        };
        row.with_first_slice()
    }
}
