// Why a session refuses a call.
ghost use Rattle.std.specs.Prelude.{◌≡◌};
ghost use Rattle.session.specs.Faults.{told, number_of, risen};
ghost use Rattle.session.specs.declared.faults.SessionFault.TheVariants.{Register};

use book::faults::BookFault;
use capacity::faults::RegisterFault;

#[derive(Clone, Copy)]
pub enum SessionFault {
    // the pass names another number or phase
    Pass,
    // the contract is above 23
    Contract,
    // the contract is closed
    Closed,
    // the area is above 15
    Area,
    // the limit is outside −999,999 to 999,999
    Limit,
    // the quantity is outside 1 to 9,999
    Quantity,
    // peak or delta does not go with the rest of the order
    Slices,
    // an order in the book has the number
    Taken,
    // no order has the number and member
    Unknown,
    // the book is full
    Full,
    // there are too few places for the route, or lines for a view
    Places,
    // the register refuses
    Register(RegisterFault),
}

impl SessionFault {
    // The number that it is refused by: the sheet of refusals is this table, and the register's part its own.
    pub fn number(&self) -> u32
        ensures { result ≡ number_of (told self.now) }
    {
        match self {
            SessionFault::Pass => 1,
            SessionFault::Contract => 2,
            SessionFault::Closed => 3,
            SessionFault::Area => 4,
            SessionFault::Limit => 5,
            SessionFault::Quantity => 6,
            SessionFault::Slices => 7,
            SessionFault::Taken => 8,
            SessionFault::Unknown => 9,
            SessionFault::Full => 10,
            SessionFault::Places => 15,
            SessionFault::Register(fault) => fault.number(),
        }
    }
}

impl From<RegisterFault> for SessionFault {
    ghost from_gives = { λ f r. r ≡ Register f };

    fn from(fault: RegisterFault) -> SessionFault {
        SessionFault::Register(fault)
    }
}

// The book's four refusals are cases here, and a match is the plainest way from one enum to another.
impl From<BookFault> for SessionFault {
    ghost from_gives = { λ f r. r ≡ risen f };

    fn from(fault: BookFault) -> SessionFault {
        match fault {
            BookFault::Limit => SessionFault::Limit,
            BookFault::Quantity => SessionFault::Quantity,
            BookFault::Slices => SessionFault::Slices,
            BookFault::Full => SessionFault::Full,
        }
    }
}
