// Orders, icebergs and the book of 128 places.
#![tactic(auto)]

pub mod faults;
mod iced;
pub mod places;
mod ranks;
pub mod rows;
mod slices;
pub mod terms;
#[cfg(test)]
mod tests;
mod trades;
