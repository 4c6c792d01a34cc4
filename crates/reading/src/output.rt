// The printing of lines, each a letter and its numbers, and the lines that every run prints.
ghost use Rattle.std.specs.Prelude.{◌≡◌, ◌++◌, map};
ghost use Rattle.numbers.specs.Printing.{shown, text_of};
ghost use Rattle.reading.specs.Output.{mark_line, refusal_line, quiet_line};
ghost use Rattle.reading.specs.Printing.{Number, plain, number_of, numbers_text, line_text};

use crate::faults::Refusal;
use crate::text::TextSink;
use numbers::{Shown, Unit, show};

/// A number of a line, by what it counts.
#[derive(Clone, Copy)]
pub enum PrintedNumber {
    /// a contract, an area, a number of an order, of a line or of a refusal, a place, a count
    Plain(u32),
    /// a quantity, in tenths of a MW
    Amount(u32),
    /// an ATC, in tenths of a MW
    Flow(i32),
    /// a limit or a price, in cents
    Price(i32),
}

/// What is printed as a number of a line.
pub trait Printed {
    ghost number: { Self → Number };

    fn shown(&self) -> Shown
        ensures { text_of result ≡ shown (number self.now).unit (number self.now).count };
}

impl Printed for PrintedNumber {
    ghost number = { number_of };

    fn shown(&self) -> Shown {
        match *self {
            PrintedNumber::Plain(n) => show(n, Unit::Count),
            PrintedNumber::Amount(n) => show(n, Unit::Megawatt),
            PrintedNumber::Flow(n) => show(n, Unit::Megawatt),
            PrintedNumber::Price(n) => show(n, Unit::Euro),
        }
    }
}

// A plain number, as an area of a route is.
impl Printed for u32 {
    ghost number = { plain };

    fn shown(&self) -> Shown {
        show(*self, Unit::Count)
    }
}

fn print_numbers<S: TextSink, N: Printed>(out: &mut S, numbers: &[N])
    ensures { S.TextSink.hears out.old (numbers_text (map N.Printed.number numbers.now)) out.new }
{
    for number in numbers {
        out.hear(b" ");
        out.hear(number.shown().as_bytes());
    }
}

/// Prints a line: a letter, numbers, and the areas of a route.
pub fn print_route_line<S: TextSink>(
    out: &mut S,
    letter: &[u8],
    numbers: &[PrintedNumber],
    route: &[u32],
)
    ensures { let all = map number_of numbers.now ++ map plain route.now in
        S.TextSink.hears out.old (line_text (record { letter = letter.now; numbers = all })) out.new }
{
    out.hear(letter);
    print_numbers(out, numbers);
    print_numbers(out, route);
    out.hear(b"\n");
}

/// Prints a line: a letter and its numbers.
pub fn print_line<S: TextSink>(out: &mut S, letter: &[u8], numbers: &[PrintedNumber])
    ensures { let all = map number_of numbers.now in
        S.TextSink.hears out.old (line_text (record { letter = letter.now; numbers = all })) out.new }
{
    print_route_line(out, letter, numbers, &[]);
}

/// Prints mark and version.
pub fn print_mark<S: TextSink>(out: &mut S)
    ensures { S.TextSink.hears out.old (line_text mark_line) out.new }
{
    print_line(out, b"CTM", &[PrintedNumber::Plain(1)]);
}

/// Prints how many orders rest.
pub fn quiet<S: TextSink>(out: &mut S, resting: u32)
    ensures { S.TextSink.hears out.old (line_text (quiet_line resting)) out.new }
{
    print_line(out, b"Q", &[PrintedNumber::Plain(resting)]);
}

/// Prints that a line is refused, with the place 0 where no word is at fault.
pub fn refuse<S: TextSink, F: Refusal>(out: &mut S, line: u32, fault: &F)
    ensures { let printed = refusal_line line (F.Refusal.number fault.now) (F.Refusal.place fault.now) in
        S.TextSink.hears out.old (line_text printed) out.new }
{
    let number = fault.number();
    let place = fault.place().unwrap_or(0);
    print_line(
        out,
        b"R",
        &[
            PrintedNumber::Plain(line),
            PrintedNumber::Plain(number),
            PrintedNumber::Plain(place),
        ],
    );
}
