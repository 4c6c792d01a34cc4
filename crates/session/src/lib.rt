// A session over any register of capacity: passes, rounds, and the calls that members and operators make.
#![tactic(auto)]

mod calls;
mod changes;
mod checks;
pub mod entries;
pub mod faults;
pub mod finishing;
pub mod passes;
mod reading;
mod settling;
pub mod state;
pub mod steps;
mod works;
