// Scripts as they run, with a heap and without one, and lines one by one with their faults.
ghost use Rattle.std.specs.Prelude.{IfOk, IsOk};

use crate::calls::run_line;
use crate::maps::run_map_line;
use crate::output::Printer;
use crate::run::run;
use capacity::direction::Direction;
use capacity::faults::{MapFault, RegisterFault};
use capacity::map::ConnectorMap;
use lines::faults::LineFault;
use reading::faults::LinkFault;
use reading::reader::Reader;
use reading::text::{TextLog, TextSink};
use session::faults::SessionFault;
use session::state::Session;
use std::alloc::{AllocError, Global};
use std::string::FromUtf8Error;
use std::test::Fail;

// A page of so many bytes, which hears as much as fits.
#[derive(Drop)]
struct Page {
    bytes: [u8; 64],
    len: usize,
}

impl TextSink for Page {
    // what it has heard a test compares
    ghost hears = { λ a text b. Unit {0} };

    ghost whole = { record { nothing = λ s. tt; joined = λ s t u a b h k. tt } };

    fn hear(&mut self, text: &[u8]) {
        for byte in text {
            if self.len < 64 {
                self.bytes[self.len] = *byte;
                self.len += 1;
            }
        }
    }
}

#[test]
fn script_on_a_page(rt: HostRuntime) -> Result<(), Fail> {
    let page = Page {
        bytes: [0; 64],
        len: 0,
    };
    let script = b"CTM 1
M 0 1 0 0
N 3 0 1 20 0 0 0
E 1 7 3 B 1 NON 50 30 0 0
E 3 9 3 S 0 IOC 4E1 25 0 0
E 6 8 3 B 0 IOC 0.005 1 0 0
";
    let page = run(script, page).output;
    let printed = b"CTM 1\nQ 0\nQ 1\nT 3 1 3 50.00 20.0 0 1\nQ 1\nR 6 19 8\n".as_slice();
    assert!(rt; page.len == printed.len());
    assert!(rt; page.bytes.starts_with(printed));
    Ok(())
}

// What a script prints, as a String, which `from_utf8` always makes of it.
fn printed(script: &[u8], heap: Global) -> Result<Result<String, FromUtf8Error>, AllocError>
    ensures { IfOk result (λ text. IsOk text) }
{
    let bytes = run(script, TextLog::new(heap)).output.into_text()?;
    Ok(String::from_utf8(bytes))
}

#[test]
fn prints_text(rt: HostRuntime) -> Result<(), Fail> {
    let script = b"CTM 1
M 0 1 0 0
N 3 0 1 20 0 0 0
E 1 7 3 B 1 NON -0.5 30 0 0
E 3 9 3 S 0 IOC -7e-1 25.5 0 0
E 6 8 3 B 0 IOC 0.005 1 0 0
";
    let text = printed(script, rt.alloc())??;
    assert_eq!(rt;
        text.as_str(),
        "CTM 1\nQ 0\nQ 1\nT 3 1 3 -0.50 20.0 0 1\nQ 1\nR 6 19 8\n"
    );
    Ok(())
}

#[test]
fn map_lines_refused(rt: HostRuntime) -> Result<(), Fail> {
    let script = b"CTM 1\nM 0 1 0 x\nM 0 0 0 0\nM 0 1 0 0\n".as_slice();
    let text = run(script, TextLog::new(rt.alloc())).output.into_text()?;
    assert!(rt; text.as_slice() == b"CTM 1\nR 2 18 5\nR 3 16 0\n".as_slice());
    Ok(())
}

// A notice is accepted, and then more is asked for than the ATC, which is 20 MW.
#[test]
fn faults_with_their_values(rt: HostRuntime) -> Result<(), Fail> {
    let mut out = Printer {
        sink: TextLog::new(rt.alloc()),
    };
    let mut reader = Reader::new(
        b"M 0 1 0 0\nM 1 1 0 0\nN 3 0 1 20 0 0 0\nX 3 0 1 20.1".as_slice(),
    );
    let mut map = ConnectorMap::new();
    reader.next_line();
    reader.letter();
    let joined = run_map_line(&mut map, &mut reader, &mut out);
    reader.next_line();
    reader.letter();
    let refused = run_map_line(&mut map, &mut reader, &mut out);
    let (mut session, pass) = Session::begin(7, map.into_register());
    reader.next_line();
    let (noticed, pass) = run_line(&mut session, pass, &mut reader, &mut out);
    reader.next_line();
    let (short, _) = run_line(&mut session, pass, &mut reader, &mut out);

    assert!(rt; joined.is_ok() && noticed.is_ok());
    assert!(rt;
        matches!(
            refused,
            Err(LinkFault::Map(MapFault::Connector { from: 1, to: 1 }))
        )
    );
    let Err(LineFault::Session(SessionFault::Register(RegisterFault::Short { direction, atc }))) =
        short
    else {
        return Err(Fail::new("not refused by 13"));
    };
    let asked = Direction {
        contract: 3,
        from: 0,
        to: 1,
    };
    assert!(rt; direction == asked && atc == 200);
    let text = out.sink.into_text()?;
    assert!(rt; text.as_slice() == b"R 2 16 0\nQ 0\nR 4 13 0\n".as_slice());
    Ok(())
}
