// Ranked lists in lines that the caller lends.
#![tactic(auto)]

pub mod example;
pub mod faults;
pub mod insertion;
pub mod list;
pub mod order;
#[cfg(test)]
mod tests;
pub mod tickets;
