// A step of a round: one trade settled, or the round's end.
ghost use Rattle.std.specs.Prelude.{◌≡◌, length, Some, Ok, Err, MatchResult};
ghost use Rattle.book.specs.Orderly.{Orderly};
ghost use Rattle.book.specs.Places.{orders};
ghost use Rattle.capacity.specs.Tests.{answered};
ghost use Rattle.matching.specs.declared.round.Round.{Round as ARound};
ghost use Rattle.routes.specs.Listed.{listed};
ghost use Rattle.trades.specs.Deals.{Deals};
ghost use Rattle.session.specs.Faults.{told};
ghost use Rattle.session.specs.State.{state, register_of};
ghost use Rattle.session.specs.Steps.{step_tests, after_trade, after_round, rested, Stepped, stepped_pass, OnlyStep};

use crate::checks::refuse_if;
use crate::faults::SessionFault;
use crate::passes::{QuietPass, Refused, RoundPass, with_pass};
use crate::state::Session;
use crate::steps::Step;
use book::places::Book;
use capacity::register::Register;
use flows::carry;
use matching::round::Round;
use routes::ROUTE_PLACES;
use trades::{Deal, next_trade, write_route};

// Drops an incoming IOC, which never rests.
fn rest(book: &mut Book, round: Round)
    ensures after { orders book.new ≡ rested round (orders book.old) }
    ensures orderly { Orderly (orders book.old) → Orderly (orders book.new) }
{
    if let Round::Regular { incoming, .. } = round {
        book.drop_ioc(incoming);
    }
}

impl<R: Register> Session<R> {
    // The round under way, if the pass names it and there are places enough for a route.
    fn check_round(&self, pass: u32, places: usize) -> Result<Round, SessionFault>
        ensures { MatchResult result (λ round. (answered (step_tests (state R.Register.meaning self.now) pass places) ≡ Ok tt) × (self.now.round ≡ Some round)) (λ e. answered (step_tests (state R.Register.meaning self.now) pass places) ≡ Err (told e)) }
    {
        let round = self.round.ok_or(SessionFault::Pass)?;
        refuse_if(pass != self.number, SessionFault::Pass)?;
        refuse_if(places < ROUTE_PLACES, SessionFault::Places)?;
        Ok(round)
    }

    // Takes the trade's quantity along its route, and off both orders.
    fn settle(&mut self, deal: &Deal)
        requires { (r : ARound) × Deals (state R.Register.meaning self.old).capacity (state R.Register.meaning self.old).book r deal.now.trade (listed deal.now.route) }
        ensures after { state R.Register.meaning self.new
            ≡ after_trade (state R.Register.meaning self.old) deal.now.trade (listed deal.now.route) }
        ensures memory { R.leaves (register_of self.old) (register_of self.new) }
    {
        let trade = deal.trade;
        carry(
            &mut self.register,
            trade.contract,
            &deal.route,
            trade.quantity,
        );
        self.book.trade(trade.buy, trade.sell, trade.quantity);
    }

    // Ends the round: an incoming IOC is dropped, and the session is quiet.
    fn finish(&mut self, round: Round)
        ensures after { state R.Register.meaning self.new ≡ after_round (state R.Register.meaning self.old) round }
        ensures register { register_of self.new ≡ register_of self.old }
    {
        rest(&mut self.book, round);
        self.round = None;
    }

    // Makes the next trade of the round, or says that it is done.
    pub fn step(&mut self, pass: RoundPass, places: &mut [u32]) -> Result<Step, Refused<RoundPass>>
        ensures step { Stepped (state R.Register.meaning self.old) pass.number places.old result places.new (state R.Register.meaning self.new) }
        ensures pass { stepped_pass result ≡ pass.number }
        ensures only { OnlyStep (state R.Register.meaning self.old) pass.number places.old result places.new (state R.Register.meaning self.new) }
        ensures memory { R.leaves (register_of self.old) (register_of self.new) }
    {
        let checked = self.check_round(pass.number, places.len());
        let (round, pass) = with_pass(checked, pass)?;
        match next_trade(&self.book, &self.register, round) {
            Some(deal) => {
                self.settle(&deal);
                write_route(places, &deal.route);
                Ok(Step::Traded {
                    trade: deal.trade,
                    pass,
                })
            }
            None => {
                self.finish(round);
                let RoundPass { number } = pass;
                Ok(Step::Done(QuietPass { number }))
            }
        }
    }
}
