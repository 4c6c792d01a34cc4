// What an accepted step answers.
use crate::passes::{QuietPass, RoundPass};
use trades::Trade;

// A trade, with the pass of the round that goes on; or the round's end, with the pass of the quiet session.
// Each case hands over a pass of its own type and neither refuses, so an Option or a Result would say less.
pub enum Step {
    Traded { trade: Trade, pass: RoundPass },
    Done(QuietPass),
}
