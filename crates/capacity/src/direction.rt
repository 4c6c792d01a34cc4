// One direction of a connector in one contract.
ghost use Rattle.std.specs.Prelude.{◌≡◌};

#[derive(Clone, Copy, PartialEq, Eq)]
pub struct Direction {
    pub contract: u32,
    pub from: u32,
    pub to: u32,
}

impl Direction {
    // The same connector the other way.
    pub fn back(self) -> Direction
        ensures { result ≡ record { contract = self.contract; from = self.to; to = self.from } }
    {
        Direction {
            contract: self.contract,
            from: self.to,
            to: self.from,
        }
    }
}
