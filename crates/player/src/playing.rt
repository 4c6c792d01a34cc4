// Calls played one after another on a session begun afresh, each round run to its end.
ghost use Rattle.std.specs.Prelude.{◌≡◌, IfOk, List};
ghost use Rattle.events.specs.declared.events.Event.{Event as AnEvent};
ghost use Rattle.history.specs.Laws.{LawsHold, OneAnswer};
ghost use Rattle.history.specs.Stands.{StandingTold};
ghost use Rattle.player.specs.Playing.{Plays, GivesBack, OnePlaying, calls_of};
ghost use Rattle.player.specs.Sinks.{Heard};

use crate::logs::EventLog;
use crate::sinks::EventSink;
use crate::telling::{Telling, take_turn};
use capacity::register::Register;
use events::calls::Call;
use events::events::Event;
use session::state::Session;
use std::alloc::{AllocError, Global};

// The register of the session that was played, and what heard its events.
#[derive(Drop)]
pub struct GivenBack<R, S> {
    pub register: R,
    pub sink: S,
}

// Begins a session over the register, makes each call in turn and runs its round to its end, and ends the session. The sink hears all
// that happens, oldest first. No memory is asked for, so this cannot fail.
pub fn play_into<R: Register, S: EventSink>(
    number: u32,
    register: R,
    calls: &[Call],
    sink: S,
) -> GivenBack<R, S>
    ensures history { (es : List AnEvent)
        × GivesBack (R.meaning register) number calls.now es (R.meaning result.register)
        × Heard S.hears sink es result.sink }
    ensures memory { R.leaves register result.register }
    ensures only { OnePlaying (R.meaning register) number calls.now }
    ensures laws { LawsHold }
    ensures standing { StandingTold }
    ensures once { OneAnswer }
{
    let (mut session, mut pass) = Session::begin(number, register);
    let mut telling = Telling { pass: number, sink };
    for call in calls {
        pass = take_turn(&mut session, pass, call, &mut telling);
    }
    let register = session.end(pass).unwrap();
    let Telling { pass: _, sink } = telling;
    GivenBack { register, sink }
}

// The register of the session that was played, and its events, oldest first, where the memory sufficed for all of them.
#[derive(Drop)]
pub struct Playback<R> {
    pub register: R,
    pub events: Result<Vec<Event>, AllocError>,
}

// The same with the events in a list.
pub fn play<R: Register>(heap: Global, number: u32, register: R, calls: &[Call]) -> Playback<R>
    ensures history { IfOk result.events (λ events. Plays (R.meaning register) number calls.now events.items) }
    ensures played { IfOk result.events (λ events. calls_of events.items ≡ calls.now) }
    ensures register { (es : List AnEvent)
        × GivesBack (R.meaning register) number calls.now es (R.meaning result.register) }
    ensures memory { R.leaves register result.register }
    ensures only { OnePlaying (R.meaning register) number calls.now }
    ensures laws { LawsHold }
    ensures standing { StandingTold }
    ensures once { OneAnswer }
{
    let GivenBack { register, sink } = play_into(number, register, calls, EventLog::new(heap));
    Playback {
        register,
        events: sink.events,
    }
}
