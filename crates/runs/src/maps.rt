// The M lines of a script, and the map that they make.
ghost use Rattle.std.specs.Prelude.{◌≡◌, OnErr};
ghost use Rattle.capacity.specs.Shapes.{network_of};
ghost use Rattle.reading.specs.Fields.{InLine};
ghost use Rattle.reading.specs.Reading.{ahead};
ghost use Rattle.runs.specs.Maps.{MapLine, LinkReadTo, OneLink, MapLineRun};
ghost use Rattle.runs.specs.Running.{MapsRun};

use crate::output::Printer;
use capacity::map::ConnectorMap;
use reading::faults::LinkFault;
use reading::output::refuse;
use reading::reader::Reader;
use reading::text::TextSink;

// Reads an M line, whose letter is read, and makes its connector.
fn map_line(map: &mut ConnectorMap, reader: &mut Reader) -> Result<(), LinkFault>
    ensures line { MapLine reader.old.words (network_of map.old) (ahead reader.old) result (network_of map.new) }
    ensures reads { LinkReadTo reader.old result reader.new }
    ensures stays { InLine reader.old reader.new }
{
    let link = reader.link()?;
    map.connect(link.from, link.to, link.held, link.held_back)?;
    Ok(())
}

/// Runs the words that are left of an M line, its letter read: makes the connector that they name, or prints `R`.
/// Answers the fault that is printed, whole; a refused line changes nothing.
pub fn run_map_line<S: TextSink>(
    map: &mut ConnectorMap,
    reader: &mut Reader,
    out: &mut Printer<S>,
) -> Result<(), LinkFault>
    ensures line { let m = network_of map.old in let m' = network_of map.new in
        MapLineRun S.TextSink.hears m reader.old out.old.sink result m' out.new.sink }
    ensures reads { LinkReadTo reader.old result reader.new }
    ensures only { OneLink reader.old.words (network_of map.old) (ahead reader.old) }
    ensures refused { OnErr result (network_of map.new ≡ network_of map.old) }
    ensures stays { InLine reader.old reader.new }
{
    let answer = map_line(map, reader);
    if let Err(fault) = &answer {
        refuse(&mut out.sink, reader.line_number(), fault);
    }
    answer
}

// Runs the M lines, and gives the map that they make.
pub(crate) fn run_map<S: TextSink>(reader: &mut Reader, out: &mut Printer<S>) -> ConnectorMap
    ensures { MapsRun S.TextSink.hears reader.old out.old.sink (network_of result) reader.new out.new.sink }
{
    let mut map = ConnectorMap::new();
    while let Some('M') = reader.letter_ahead() {
        reader.next_line();
        reader.letter();
        // the fault is printed, and the next line is run all the same
        let _ = run_map_line(&mut map, reader, out);
    }
    map
}
