// The two kinds of round.

// A regular round trades the incoming order, by its number; a batch round trades any orders of its contract.
#[derive(Clone, Copy, PartialEq, Eq)]
pub enum Round {
    Regular { contract: u32, incoming: u32 },
    Batch { contract: u32 },
}
