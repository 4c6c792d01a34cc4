// The views of a contract as text for a person.
#![tactic(auto)]

mod lines;
pub mod screen;
#[cfg(test)]
mod tests;
