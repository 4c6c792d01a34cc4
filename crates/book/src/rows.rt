// Orders as plain rows, and the terms that they are entered with.

// Which way an order trades.
#[derive(Clone, Copy, PartialEq, Eq)]
pub enum Side {
    Buy,
    Sell,
}

// NON rests when unmatched, IOC never rests, ICE is an iceberg, which shows a slice at a time.
#[derive(Clone, Copy, PartialEq, Eq)]
pub enum Kind {
    Non,
    Ioc,
    Ice,
}

// What a member asks for; peak and delta are an iceberg's.
#[derive(Clone, Copy, PartialEq, Eq)]
pub struct OrderTerms {
    pub kind: Kind,
    pub side: Side,
    pub limit: i32,
    pub quantity: u32,
    pub peak: u32,
    pub delta: u32,
}

// An order as it stands in the book.
#[derive(Clone, Copy, PartialEq, Eq)]
pub struct Order {
    pub number: u32,
    pub member: u32,
    pub contract: u32,
    pub side: Side,
    pub area: u32,
    pub kind: Kind,
    pub limit: i32,
    pub open: u32,
    pub shown: u32,
    pub peak: u32,
    pub delta: u32,
}
