// Scripts of trading sessions: a reader over their lines and words, what its lines name, and the lines that answer them.
#![tactic(auto)]

pub mod faults;
pub mod fields;
pub mod letters;
pub mod links;
pub mod output;
pub mod reader;
#[cfg(test)]
mod tests;
pub mod text;
