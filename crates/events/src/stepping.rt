// A step made on a session, and the pass that it leaves.
ghost use Rattle.std.specs.Prelude.{◌≡◌, length};
ghost use Rattle.events.specs.declared.events.Event.TheVariants.{Stepped};
ghost use Rattle.events.specs.Events.{HappensOn, PlacesAfter, goes_on};
ghost use Rattle.events.specs.Performing.{LeftBy};
ghost use Rattle.session.specs.State.{register_of};

use crate::events::{StepAnswer, Traded};
use crate::making::Left;
use capacity::register::Register;
use session::passes::{Refused, RoundPass};
use session::state::Session;
use session::steps::Step;

// Makes a step, with a pass of any session and over as many places as there are. A refused one leaves session and places as they were
// and hands the same pass back.
pub fn step<R: Register>(
    session: &mut Session<R>,
    pass: RoundPass,
    places: &mut [u32],
) -> (StepAnswer, Left)
    ensures happens { HappensOn R.meaning session.old (Stepped pass.number (length places.old) result.0) session.new }
    ensures left { LeftBy (goes_on result.0) pass.number result.1 }
    ensures places { PlacesAfter places.old result.0 places.new }
    ensures memory { R.leaves (register_of session.old) (register_of session.new) }
{
    match session.step(pass, places) {
        Ok(Step::Traded { trade, pass }) => {
            let traded = Traded::new(&trade, &places[..trade.areas]);
            (Ok(Some(traded)), Left::Round(pass))
        }
        Ok(Step::Done(pass)) => (Ok(None), Left::Quiet(pass)),
        Err(Refused { fault, pass }) => (Err(fault), Left::Round(pass)),
    }
}
