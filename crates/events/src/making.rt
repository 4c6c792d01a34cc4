// A call made on a session, and the pass that it leaves.
ghost use Rattle.std.specs.Prelude.{◌≡◌, Ok, Err, MatchResult};
ghost use Rattle.session.specs.State.{state, register_of};
ghost use Rattle.events.specs.declared.events.Event.TheVariants.{Called};
ghost use Rattle.events.specs.Events.{Answered, HappensOn, begins_round, round_follows};
ghost use Rattle.events.specs.Performing.{LeftBy};

use crate::calls::Call;
use crate::events::Answer;
use capacity::register::Register;
use session::passes::{Closing, QuietPass, Refused, RoundPass};
use session::state::Session;

// The pass that a call or a step leaves: of a quiet session, or of one with a round under way. Neither is a fault and both hold a
// pass, so a Result or an Option would say less.
pub enum Left {
    Quiet(QuietPass),
    Round(RoundPass),
}

// What an accepted call answers, and the pass that it leaves; or why it is refused. The parameters are those of `perform`.
fn accept<R: Register>(
    session: &mut Session<R>,
    pass: QuietPass,
    call: &Call,
) -> Result<(Option<usize>, Left), Refused<QuietPass>>
    ensures answer { MatchResult result (λ x. Answered (state R.Register.meaning session.old) pass.number call.now (Ok x.0) (state R.Register.meaning session.new)) (λ e. Answered (state R.Register.meaning session.old) pass.number call.now (Err e.fault) (state R.Register.meaning session.new)) }
    ensures memory { R.leaves (register_of session.old) (register_of session.new) }
    ensures left { MatchResult result (λ x. LeftBy (begins_round call.now) pass.number x.1) (λ e. e.pass.number ≡ pass.number) }
{
    // A match and no closures: calls are values, which events hold and laws speak of.
    let round = match *call {
        Call::Enter(entry) => session.enter(pass, &entry)?,
        Call::Change(change) => session.change(pass, &change)?,
        Call::Request {
            direction,
            quantity,
        } => session.request(pass, direction, quantity)?,
        Call::Notice { direction, figures } => session.notice(pass, direction, figures)?,
        Call::Withdraw { number, member } => {
            let pass = session.withdraw(pass, number, member)?;
            return Ok((None, Left::Quiet(pass)));
        }
        Call::Close { contract } => {
            let Closing { gone, pass } = session.close(pass, contract)?;
            return Ok((Some(gone), Left::Quiet(pass)));
        }
    };
    Ok((None, Left::Round(round)))
}

// Makes a call, with a pass of any session. A refused one leaves the session as it was and hands the same pass back.
pub fn make<R: Register>(session: &mut Session<R>, pass: QuietPass, call: &Call) -> (Answer, Left)
    ensures happens { HappensOn R.meaning session.old (Called pass.number call.now result.0) session.new }
    ensures left { LeftBy (round_follows call.now result.0) pass.number result.1 }
    ensures memory { R.leaves (register_of session.old) (register_of session.new) }
{
    match accept(session, pass, call) {
        Ok((gone, left)) => (Ok(gone), left),
        Err(Refused { fault, pass }) => (Err(fault), Left::Quiet(pass)),
    }
}
