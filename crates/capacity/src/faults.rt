// Why a register refuses a call, and why a map refuses a connector.
ghost use Rattle.std.specs.Prelude.{◌≡◌};
ghost use Rattle.capacity.specs.Faults.{told, map_told};

use crate::direction::Direction;

// Each case says which direction of which contract was asked for.
#[derive(Clone, Copy)]
pub enum RegisterFault {
    // the contract is above 23
    Contract(Direction),
    // the quantity is outside 1 to 99,999
    Quantity(Direction),
    // no connector joins the areas
    Unjoined(Direction),
    // a figure is above 99,999
    Figure(Direction),
    // the ATC is below the quantity
    Short { direction: Direction, atc: i32 },
    // the pair is not noted and no more can be
    Full(Direction),
}

impl RegisterFault {
    // The table of numbers, by a match: a variant that holds values has no cast.
    pub fn number(&self) -> u32
        ensures { result ≡ (told self.now).number }
    {
        match self {
            RegisterFault::Contract(_) => 2,
            RegisterFault::Quantity(_) => 6,
            RegisterFault::Unjoined(_) => 11,
            RegisterFault::Figure(_) => 12,
            RegisterFault::Short { .. } => 13,
            RegisterFault::Full(_) => 14,
        }
    }
}

// Each case says which two areas were to be joined.
#[derive(Clone, Copy)]
pub enum MapFault {
    // what is to be kept back is above 99,999
    Kept { from: u32, to: u32 },
    // an area is above 15, both are equal or already joined, or 32 connectors exist
    Connector { from: u32, to: u32 },
}

impl MapFault {
    // As above.
    pub fn number(&self) -> u32
        ensures { result ≡ (map_told self.now).number }
    {
        match self {
            MapFault::Kept { .. } => 12,
            MapFault::Connector { .. } => 16,
        }
    }
}
