// A call made on a session, and its round, if it begins one, run to its end.
ghost use Rattle.std.specs.Prelude.{◌≡◌};
ghost use Rattle.session.specs.State.{state, register_of};
ghost use Rattle.events.specs.declared.events.Event.{Event as AnEvent};
ghost use Rattle.events.specs.Performing.{Performed};

use crate::calls::Call;
use crate::events::{Answer, Event};
use crate::making::{Left, make};
use capacity::register::Register;
use session::finishing::TradeLog;
use session::passes::QuietPass;
use session::state::Session;

// What a caller does with a call and its answer, before the trades that follow.
pub trait CallLog {
    // what noting a call makes of the log; one that can fail says so here
    ghost calls: { Self → AnEvent → Self → Type 0 };

    // Notes a call with its answer.
    fn note_call(&mut self, event: &Event)
        ensures { calls self.old event.now self.new };
}

// Makes a call and runs its round to its end; the log is told of the call, then of each trade.
// Session, pass and log stay parameters: a struct of two `&mut` and a pass that is moved would be made and taken apart at each call.
#[tactic(auto, using(crate::proofs::Tests::round_begun))]
pub fn perform<R: Register, L: CallLog + TradeLog>(
    session: &mut Session<R>,
    pass: QuietPass,
    call: &Call,
    log: &mut L,
) -> (Answer, QuietPass)
    ensures performed { Performed L.CallLog.calls L.TradeLog.notes (state R.Register.meaning session.old) pass.number call.now log.old result.0 log.new (state R.Register.meaning session.new) }
    ensures pass { result.1.number ≡ pass.number }
    ensures memory { R.leaves (register_of session.old) (register_of session.new) }
{
    let number = pass.number();
    let (answer, left) = make(session, pass, call);
    log.note_call(&Event::Called {
        pass: number,
        call: *call,
        answer,
    });
    match left {
        Left::Quiet(pass) => (answer, pass),
        Left::Round(pass) => (answer, session.finish_round(pass, log).unwrap()),
    }
}
