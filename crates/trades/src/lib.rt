// What a round trades next: who with whom, along which route, how much and at which price.
#![tactic(auto)]

mod deals;
mod places;
mod trade;

pub use deals::next_trade;
pub use places::write_route;
pub use trade::{Deal, Trade};
