// A round stepped to its end, with each trade handed to the caller.
ghost use Rattle.std.specs.Prelude.{◌≡◌};
ghost use Rattle.session.specs.State.{state, register_of};
ghost use Rattle.session.specs.Rounds.{Logged, Finished, finished_pass};

use crate::passes::{QuietPass, Refused, RoundPass};
use crate::state::Session;
use crate::steps::Step;
use capacity::register::Register;
use routes::ROUTE_PLACES;
use trades::Trade;

// What a caller does with the trades of a round.
pub trait TradeLog {
    // what noting a trade makes of the log; one that can fail says so here
    ghost notes: { Self → Logged → Self → Type 0 };

    // Notes a trade and the areas of its route.
    fn note(&mut self, trade: &Trade, route: &[u32])
        ensures { notes self.old (record { trade = trade.now; route = route.now }) self.new };
}

impl<R: Register> Session<R> {
    // Makes every trade that is left of the round, notes each, and ends it; a pass of no round here is refused at once.
    pub fn finish_round<L: TradeLog>(
        &mut self,
        pass: RoundPass,
        log: &mut L,
    ) -> Result<QuietPass, Refused<RoundPass>>
        ensures ran { Finished L.TradeLog.notes (state R.Register.meaning self.old) pass.number log.old result log.new (state R.Register.meaning self.new) }
        ensures pass { finished_pass result ≡ pass.number }
        ensures memory { R.leaves (register_of self.old) (register_of self.new) }
    {
        let mut places = [0u32; ROUTE_PLACES];
        let mut pass = pass;
        loop {
            match self.step(pass, &mut places)? {
                Step::Traded { trade, pass: next } => {
                    let route = &places[..trade.areas];
                    log.note(&trade, route);
                    pass = next;
                }
                Step::Done(quiet) => return Ok(quiet),
            }
        }
    }
}
