// The run of a script: its header, its map, and then its calls on a session over the map's register.
ghost use Rattle.std.specs.Prelude.{◌≡◌, List};
ghost use Rattle.history.specs.Laws.{LawsHold, OneAnswer};
ghost use Rattle.history.specs.Stands.{StandingTold};
ghost use Rattle.reading.specs.Printing.{Line, lines_text};
ghost use Rattle.runs.specs.Running.{HeaderRead, ScriptRun};
ghost use Rattle.runs.specs.Runs.{Prints, OnePrint, PrintsReadBack, PrintsText, left};

use crate::calls::run_calls;
use crate::maps::run_map;
use crate::output::Printer;
use capacity::reserve::Reserve;
use capacity::table::FullTable;
use reading::faults::WordFault;
use reading::output::{print_mark, refuse};
use reading::reader::Reader;
use reading::reader::calls::SCRIPT_MOST;
use reading::text::TextSink;
use session::state::Session;

/// The session that a script runs.
pub type Market = Session<Reserve<FullTable>>;

/// The sink after a run, and the session that the run leaves: none where the form of the script was wrong.
#[derive(Drop)]
pub struct Ran<S> {
    pub output: S,
    pub session: Option<Market>,
}

// Whether the first line is exactly mark and version.
fn header(reader: &mut Reader) -> bool
    ensures { HeaderRead reader.old result reader.new }
{
    reader.next_line() && reader.line() == Some(b"CTM 1".as_slice())
}

// Runs a script, after mark and version are printed.
fn run_script<S: TextSink>(script: &[u8], out: &mut Printer<S>) -> Option<Market>
    ensures { ScriptRun S.TextSink.hears script.now out.old.sink (left result) out.new.sink }
{
    if script.len() > SCRIPT_MOST {
        refuse(&mut out.sink, 0, &WordFault::Form);
        return None;
    }
    let mut reader = Reader::new(script);
    if !header(&mut reader) {
        refuse(&mut out.sink, 1, &WordFault::Form);
        return None;
    }
    let map = run_map(&mut reader, out);
    let session = run_calls(map.into_register(), &mut reader, out);
    Some(session)
}

/// Runs a script on a session begun afresh, and prints it into the sink.
pub fn run<S: TextSink>(script: &[u8], out: S) -> Ran<S>
    ensures prints { (lines : List Line)
        × Prints script.now (left result.session) lines × S.TextSink.hears out (lines_text lines) result.output }
    ensures only { OnePrint script.now }
    ensures reads_back { PrintsReadBack script.now }
    ensures text { PrintsText script.now }
    ensures laws { LawsHold }
    ensures standing { StandingTold }
    ensures once { OneAnswer }
{
    let mut out = Printer { sink: out };
    print_mark(&mut out.sink);
    let session = run_script(script, &mut out);
    let Printer { sink: output } = out;
    Ran { output, session }
}
