// Cross-border capacity: the map of connectors, what a register of capacity means, and two registers.
#![tactic(auto)]

pub mod checks;
pub mod direction;
pub mod example;
pub mod faults;
pub mod figures;
pub mod limits;
pub mod map;
pub mod pair;
pub mod register;
pub mod reserve;
pub mod side;
pub mod table;
#[cfg(test)]
mod tests;
