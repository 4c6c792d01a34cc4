// The calls on a session as values, the events that they and the steps of a round make, and a call made with its round run to its end.
#![tactic(auto)]

pub mod calls;
pub mod events;
pub mod making;
pub mod performing;
pub mod stepping;
