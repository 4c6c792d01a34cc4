// The lines of calls of a script, each a turn of one session.
ghost use Rattle.std.specs.Prelude.{◌≡◌, OnErr};
ghost use Rattle.session.specs.State.{state, register_of};
ghost use Rattle.events.specs.Events.{acceptance};
ghost use Rattle.lines.specs.declared.faults.LineFault.TheVariants.{Session as ASession};
ghost use Rattle.reading.specs.Faults.{upward};
ghost use Rattle.reading.specs.Fields.{InLine};
ghost use Rattle.reading.specs.Printing.{line_text};
ghost use Rattle.reading.specs.Reading.{ahead};
ghost use Rattle.runs.specs.Lines.{answer_line, LineRun, OneOutcome};
ghost use Rattle.runs.specs.Running.{AskedFor, TurnRun, CallsRun};

use crate::output::Printer;
use capacity::register::Register;
use events::calls::Call;
use events::events::Answer;
use events::performing::perform;
use lines::asking::call;
use lines::faults::LineFault;
use reading::output::{quiet, refuse};
use reading::reader::Reader;
use reading::text::TextSink;
use session::passes::QuietPass;
use session::state::Session;

const SESSION_NUMBER: u32 = 1;

// Whether the call was accepted, the session's fault carried upward whole.
fn accepted(answer: Answer) -> Result<(), LineFault>
    ensures { result ≡ upward ASession (acceptance answer) }
{
    answer?;
    Ok(())
}

// The call that the line asks for, or a fault of its words, carried upward whole.
fn asked(reader: &mut Reader) -> Result<Call, LineFault>
    ensures asked { AskedFor reader.old result reader.new }
    ensures stays { InLine reader.old reader.new }
{
    Ok(call(reader)?)
}

// Makes the call that the line asks for, runs its round to its end and prints its trades.
// The parameters are those of `perform`, with the reader.
fn take_turn<R: Register, S: TextSink>(
    session: &mut Session<R>,
    pass: QuietPass,
    reader: &mut Reader,
    out: &mut Printer<S>,
) -> (Result<(), LineFault>, QuietPass)
    ensures turn { let s = state R.Register.meaning session.old in let t = state R.Register.meaning session.new in
        TurnRun S.TextSink.hears s pass.number reader.old out.old.sink result.0 t reader.new out.new.sink }
    ensures stays { InLine reader.old reader.new }
    ensures pass { result.1.number ≡ pass.number }
    ensures memory { R.Register.leaves (register_of session.old) (register_of session.new) }
{
    match asked(reader) {
        Ok(call) => {
            let (answer, pass) = perform(session, pass, &call, out);
            (accepted(answer), pass)
        }
        Err(fault) => (Err(fault), pass),
    }
}

// Ends an accepted line with the orders resting, and a refused one with its fault.
fn print_answer<S: TextSink>(out: &mut S, line: u32, answer: &Result<(), LineFault>, resting: u32)
    ensures { S.TextSink.hears out.old (line_text (answer_line line answer.now resting)) out.new }
{
    match answer {
        Ok(()) => quiet(out, resting),
        Err(fault) => refuse(out, line, fault),
    }
}

/// Runs the words that are left of the line at hand, its letter first, on a session: makes the call that they ask for,
/// runs its round to the end and prints its trades, and then `Q` or `R`.
/// Answers the fault that is printed, whole; a refused line changes nothing.
pub fn run_line<R: Register, S: TextSink>(
    session: &mut Session<R>,
    pass: QuietPass,
    reader: &mut Reader,
    out: &mut Printer<S>,
) -> (Result<(), LineFault>, QuietPass)
    ensures line { let s = state R.Register.meaning session.old in let t = state R.Register.meaning session.new in
        LineRun S.TextSink.hears s pass.number reader.old out.old.sink result.0 t reader.new out.new.sink }
    ensures only { OneOutcome pass.number reader.old.words (state R.Register.meaning session.old) (ahead reader.old) }
    ensures refused { OnErr result.0 (state R.Register.meaning session.new ≡ state R.Register.meaning session.old) }
    ensures stays { InLine reader.old reader.new }
    ensures pass { result.1.number ≡ pass.number }
    ensures memory { R.Register.leaves (register_of session.old) (register_of session.new) }
{
    let line = reader.line_number();
    let (answer, pass) = take_turn(session, pass, reader, out);
    print_answer(&mut out.sink, line, &answer, session.resting());
    (answer, pass)
}

// Runs the lines that are left on a session begun over the register, and gives that session.
pub(crate) fn run_calls<R: Register, S: TextSink>(
    register: R,
    reader: &mut Reader,
    out: &mut Printer<S>,
) -> Session<R>
    ensures { let t = state R.Register.meaning result in
        CallsRun S.TextSink.hears (R.Register.meaning register) reader.old out.old.sink t out.new.sink }
{
    let (mut session, mut pass) = Session::begin(SESSION_NUMBER, register);
    while reader.next_line() {
        // the fault is printed, and the next line is run all the same
        let (_, quiet) = run_line(&mut session, pass, reader, out);
        pass = quiet;
    }
    session
}
