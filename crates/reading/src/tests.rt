// The lines that a run prints, as they run.
use crate::faults::WordFault;
use crate::output::{PrintedNumber, print_line, print_mark, print_route_line, quiet, refuse};
use crate::text::{TextLog, TextSink};
use numbers::NumberFault;
use std::test::Fail;

#[test]
fn lines_of_their_own(rt: HostRuntime) -> Result<(), Fail> {
    let mut out = TextLog::new(rt.alloc());
    print_mark(&mut out);
    quiet(&mut out, 3);
    refuse(&mut out, 7, &WordFault::Form);
    let fault = WordFault::Number {
        place: 8,
        fault: NumberFault::Fraction,
    };
    refuse(&mut out, 6, &fault);
    let text = out.into_text()?;
    assert!(rt; text.as_slice() == b"CTM 1\nQ 3\nR 7 17 0\nR 6 19 8\n".as_slice());
    Ok(())
}

// One number of each kind, and a route.
#[test]
fn lines_of_numbers(rt: HostRuntime) -> Result<(), Fail> {
    let mut out = TextLog::new(rt.alloc());
    let trade = [
        PrintedNumber::Plain(3),
        PrintedNumber::Plain(1),
        PrintedNumber::Plain(4294967295),
        PrintedNumber::Price(-2147483648),
        PrintedNumber::Amount(200),
    ];
    print_route_line(&mut out, b"T", &trade, &[0, 15, 1]);
    print_line(&mut out, b"A", &[PrintedNumber::Flow(-5)]);
    print_line(&mut out, b"", &[]);
    let text = out.into_text()?;
    assert!(rt;
        text.as_slice() == b"T 3 1 4294967295 -21474836.48 20.0 0 15 1\nA -0.5\n\n".as_slice()
    );
    Ok(())
}

// A text heard in parts is the text.
#[test]
fn heard_in_parts(rt: HostRuntime) -> Result<(), Fail> {
    let mut out = TextLog::new(rt.alloc());
    out.hear(b"CT");
    out.hear(b"");
    out.hear(b"M 1");
    let text = out.into_text()?;
    assert!(rt; text.as_slice() == b"CTM 1".as_slice());
    Ok(())
}
