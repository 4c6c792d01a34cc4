// What a trade asks of a capacity register: which directions are open, what a route can carry, and the takes along it.
// Register and contract stay two parameters: `carry` writes to the register and the rest read it, so one struct could not serve both.
#![tactic(auto)]

mod directions;
mod trades;

pub use directions::open_grid;
pub use trades::{carry, least_along};

#[cfg(test)]
mod tests;
