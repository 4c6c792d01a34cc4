// Worked examples, proved together as one table, and calls played over a register that the caller lends.
#![tactic(auto)]

ghost use Rattle.trials.specs.Trials.{Trials};

pub mod over_cells;
pub mod rounds;
#[cfg(test)]
mod sessions;
#[cfg(test)]
mod tests;

// The table, as a theorem.
pub fn trials_hold()
    ensures { Trials }
{}
