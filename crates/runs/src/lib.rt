// Scripts of trading sessions, run line by line.
#![tactic(auto)]

pub mod calls;
pub mod maps;
pub mod output;
pub mod run;
#[cfg(test)]
mod tests;
