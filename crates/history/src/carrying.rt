// A call and a step made by any caller, with any pass and over any places, each of whose contracts carries the laws on.
ghost use Rattle.std.specs.Prelude.{◌≡◌, length};
ghost use Rattle.events.specs.declared.events.Event.TheVariants.{Called, Stepped};
ghost use Rattle.events.specs.Events.{HappensOn, PlacesAfter, goes_on, round_follows};
ghost use Rattle.events.specs.Performing.{LeftBy};
ghost use Rattle.history.specs.Laws.{OneForCall, OneForStep};
ghost use Rattle.history.specs.Extending.{ExtendsOn};
ghost use Rattle.history.specs.Stands.{StandingTold};
ghost use Rattle.session.specs.State.{state, register_of};

use capacity::register::Register;
use events::calls::Call;
use events::events::{Answer, StepAnswer};
use events::making::Left;
use events::{making, stepping};
use session::passes::{QuietPass, RoundPass};
use session::state::Session;

// Makes a call, as `events::making::make` does.
pub fn make<R: Register>(session: &mut Session<R>, pass: QuietPass, call: &Call) -> (Answer, Left)
    ensures happens { HappensOn R.meaning session.old (Called pass.number call.now result.0) session.new }
    ensures lawful { ExtendsOn R.meaning session.old (Called pass.number call.now result.0) session.new }
    ensures standing { StandingTold }
    ensures once { OneForCall (state R.meaning session.old) pass.number }
    ensures left { LeftBy (round_follows call.now result.0) pass.number result.1 }
    ensures memory { R.leaves (register_of session.old) (register_of session.new) }
{
    making::make(session, pass, call)
}

// Makes a step, as `events::stepping::step` does.
pub fn step<R: Register>(
    session: &mut Session<R>,
    pass: RoundPass,
    places: &mut [u32],
) -> (StepAnswer, Left)
    ensures happens { HappensOn R.meaning session.old (Stepped pass.number (length places.old) result.0) session.new }
    ensures lawful { ExtendsOn R.meaning session.old (Stepped pass.number (length places.old) result.0) session.new }
    ensures standing { StandingTold }
    ensures once { OneForStep (state R.meaning session.old) pass.number }
    ensures left { LeftBy (goes_on result.0) pass.number result.1 }
    ensures places { PlacesAfter places.old result.0 places.new }
    ensures memory { R.leaves (register_of session.old) (register_of session.new) }
{
    stepping::step(session, pass, places)
}
