// A line of each view as it is printed.
ghost use Rattle.std.specs.Prelude.{◌≡◌, ◌≤◌};
ghost use Rattle.reading.specs.Printing.{line_text};
ghost use Rattle.screens.specs.Lines.{capacity_line, side_letter, book_line};

use book::rows::Side;
use reading::output::{PrintedNumber, print_line};
use reading::text::TextSink;
use views::lines::{BookLine, CapacityLine};

// Prints what can still flow in a direction.
pub(crate) fn print_capacity_line<S: TextSink>(out: &mut S, contract: u32, line: &CapacityLine)
    ensures { S.TextSink.hears out.old (line_text (capacity_line contract line.now)) out.new }
{
    let numbers = [
        PrintedNumber::Plain(contract),
        PrintedNumber::Plain(line.from),
        PrintedNumber::Plain(line.to),
        PrintedNumber::Flow(line.atc),
    ];
    print_line(out, b"A", &numbers);
}

fn side_letter(side: Side) -> &'static [u8]
    ensures { result.now ≡ side_letter side }
{
    match side {
        Side::Buy => b"B",
        Side::Sell => b"S",
    }
}

// Prints an order that shows in an area.
pub(crate) fn print_book_line<S: TextSink>(out: &mut S, contract: u32, area: u32, line: &BookLine)
    requires { line.now.place ≤ 127 }
    ensures { S.TextSink.hears out.old (line_text (book_line contract area line.now)) out.new }
{
    let numbers = [
        PrintedNumber::Plain(contract),
        PrintedNumber::Plain(area),
        PrintedNumber::Plain(line.place as u32),
        PrintedNumber::Price(line.limit),
        PrintedNumber::Amount(line.quantity),
    ];
    print_line(out, side_letter(line.side), &numbers);
}
