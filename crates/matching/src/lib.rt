// Which pair of orders a round trades.
#![tactic(auto)]

mod choice;
mod pairs;
pub mod round;
mod spans;
mod ways;

pub use choice::{Pair, choose};

#[cfg(test)]
mod tests;
