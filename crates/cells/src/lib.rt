// A capacity register in cells that the caller lends: one for each noted pair of contract and connector.
#![tactic(auto)]

pub mod cell;
pub mod example;
mod find;
pub mod register;
mod store;
#[cfg(test)]
mod tests;
