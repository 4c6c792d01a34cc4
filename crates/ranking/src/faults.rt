// Why a ranked list refuses an element, which it then hands back.
ghost use Rattle.std.specs.Prelude.{◌≡◌};
ghost use Rattle.ranking.specs.Refusals.{fault_number};

#[derive(Clone, Copy)]
pub enum RankingFault {
    // every line that was lent is in use
    Full = 15,
}

impl RankingFault {
    // The number that it is refused by.
    pub fn number(&self) -> u32
        ensures { result ≡ fault_number self.now }
    {
        *self as u32
    }
}

// An element that was not taken, since it may be of a type that cannot be copied or let go.
#[derive(Drop)]
pub struct Refused<T> {
    pub fault: RankingFault,
    pub element: T,
}
