// Two views of a session: what its book offers in an area, and what its connectors can carry.
#![tactic(auto)]

mod directions;
pub mod lines;
mod offers;
#[cfg(test)]
mod tests;
mod view;

pub use directions::capacity_view;
pub use offers::book_view;
