// A trade as it is answered, and with its route.
use routes::Route;

// The orders by their numbers, the areas of buyer and seller, and how many areas the route has.
// The route itself goes into places that the caller lends: no heap, and too few of them is a refusal of the step.
#[derive(Clone, Copy)]
pub struct Trade {
    pub contract: u32,
    pub buy: u32,
    pub sell: u32,
    pub buyer: u32,
    pub seller: u32,
    pub price: i32,
    pub quantity: u32,
    pub areas: usize,
}

#[derive(Clone, Copy)]
pub struct Deal {
    pub trade: Trade,
    pub route: Route,
}
