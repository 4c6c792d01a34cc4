// A turn of a session, with its events told to a sink.
ghost use Rattle.std.specs.Prelude.{◌≡◌};
ghost use Rattle.session.specs.State.{state, register_of};
ghost use Rattle.player.specs.Sinks.{trade_event, TurnHeard};

use crate::sinks::EventSink;
use capacity::register::Register;
use events::calls::Call;
use events::events::{Event, Traded};
use events::performing::{CallLog, perform};
use routes::ROUTE_PLACES;
use session::finishing::TradeLog;
use session::passes::QuietPass;
use session::state::Session;
use trades::Trade;

// A sink, with the number of the pass that every call and step is made with.
pub(crate) struct Telling<S> {
    pub(crate) pass: u32,
    pub(crate) sink: S,
}

impl<S: EventSink> TradeLog for Telling<S> {
    ghost notes = { λ a x b. (b.pass ≡ a.pass) × S.hears a.sink (trade_event a.pass x) b.sink };

    fn note(&mut self, trade: &Trade, route: &[u32]) {
        self.sink.hear(&Event::Stepped {
            pass: self.pass,
            places: ROUTE_PLACES,
            answer: Ok(Some(Traded::new(trade, route))),
        });
    }
}

impl<S: EventSink> CallLog for Telling<S> {
    ghost calls = { λ a e b. (b.pass ≡ a.pass) × S.hears a.sink e b.sink };

    fn note_call(&mut self, event: &Event) {
        self.sink.hear(event);
    }
}

// Makes a call and runs its round to its end; the sink hears of the call, of each trade and of the end of the round.
// The parameters are those of `perform`, which takes the pass by value and the rest by reference, so no struct holds them.
pub(crate) fn take_turn<R: Register, S: EventSink>(
    session: &mut Session<R>,
    pass: QuietPass,
    call: &Call,
    telling: &mut Telling<S>,
) -> QuietPass
    requires { telling.old.pass ≡ pass.number }
    ensures turn { TurnHeard S.hears
        (state R.meaning session.old) pass.number call.now
        telling.old.sink telling.new.sink (state R.meaning session.new) }
    ensures told { telling.new.pass ≡ telling.old.pass }
    ensures pass { result.number ≡ pass.number }
    ensures memory { R.leaves (register_of session.old) (register_of session.new) }
{
    let (answer, quiet) = perform(session, pass, call, telling);
    let follows = call.begins_round() && answer.is_ok();
    if follows {
        telling.sink.hear(&Event::Stepped {
            pass: telling.pass,
            places: ROUTE_PLACES,
            answer: Ok(None),
        });
    }
    quiet
}
