// Why an order's terms, or one more order, are refused, by the numbers of the refusal sheet.
ghost use Rattle.std.specs.Prelude.{◌≡◌};
ghost use Rattle.book.specs.Refusals.{fault_number};

#[derive(Clone, Copy, PartialEq, Eq)]
pub enum BookFault {
    Limit = 5,
    Quantity = 6,
    Slices = 7,
    Full = 10,
}

impl BookFault {
    // The number that it is refused by.
    pub fn number(&self) -> u32
        ensures { result ≡ fault_number self.now }
    {
        *self as u32
    }
}
