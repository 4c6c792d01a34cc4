// The call lines of a script: the calls on a session that they ask for.
#![tactic(auto)]

pub mod asking;
mod entries;
pub mod faults;
