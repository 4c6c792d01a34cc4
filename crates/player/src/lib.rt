// Lists of calls played on a session begun afresh, with every event that they make.
#![tactic(auto)]

mod logs;
pub mod playing;
pub mod sinks;
mod telling;
#[cfg(test)]
mod tests;
