// A call on a quiet session, as a value.
ghost use Rattle.std.specs.Prelude.{◌≡◌};
ghost use Rattle.events.specs.Events.{begins_round};

use capacity::direction::Direction;
use capacity::figures::Figures;
use session::entries::{Change, Entry};

#[derive(Clone, Copy)]
pub enum Call {
    Enter(Entry),
    Change(Change),
    Withdraw {
        number: u32,
        member: u32,
    },
    Request {
        direction: Direction,
        quantity: u32,
    },
    Notice {
        direction: Direction,
        figures: Figures,
    },
    Close {
        contract: u32,
    },
}

impl Call {
    // Whether the call begins a round, once it is accepted.
    pub fn begins_round(&self) -> bool
        ensures { result ≡ begins_round self.now }
    {
        !matches!(self, Call::Withdraw { .. } | Call::Close { .. })
    }
}
