// What stands in the market by the events of a session alone, the laws that no list of calls can break, and a call and a step that carry
// them for any caller.
#![tactic(auto)]

pub mod carrying;
