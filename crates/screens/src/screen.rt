// The views of a contract, printed one after another.
ghost use Rattle.std.specs.Prelude.{◌≡◌, ◌≤◌, Ok, OnOk};
ghost use Rattle.std.specs.List.{AllByRecursion};
ghost use Rattle.capacity.specs.Tests.{answered};
ghost use Rattle.reading.specs.Printing.{LineReadsBack};
ghost use Rattle.session.specs.State.{state};
ghost use Rattle.views.specs.Capacities.{contract_tests};
ghost use Rattle.screens.specs.Screens.{CapacityView, BookView, Screened, OneScreen, ScreenReadsBack};
ghost use Rattle.screens.specs.Printing.{HeardBack};

use crate::lines::{print_book_line, print_capacity_line};
use book::places::PLACES;
use book::rows::Side;
use capacity::register::Register;
use reading::text::TextSink;
use routes::AREAS;
use session::faults::SessionFault;
use session::state::Session;
use views::lines::{BookLine, CapacityLine};
use views::{book_view, capacity_view};

// A line for every two areas, since a register of one's own may join them all, and one for each place of the book: no view has more.
const CAPACITY_LINES: usize = (AREAS * AREAS) as usize;

const BOOK_LINES: usize = PLACES;

const NO_CAPACITY: CapacityLine = CapacityLine {
    atc: 0,
    from: 0,
    to: 0,
};

const NO_ORDER: BookLine = BookLine {
    side: Side::Buy,
    limit: 0,
    place: 0,
    quantity: 0,
};

// Prints the capacity view of a contract that can be viewed: with lines enough it is not refused.
fn print_capacities<R: Register, S: TextSink>(session: &Session<R>, contract: u32, out: &mut S)
    requires { answered (contract_tests (state R.Register.meaning session.now) contract) ≡ Ok tt }
    ensures { let view = CapacityView (state R.Register.meaning session.now) contract in
        HeardBack S.TextSink.hears view out.old out.new }
{
    let mut lines = [NO_CAPACITY; CAPACITY_LINES];
    let Ok(count) = capacity_view(session, contract, &mut lines) else {
        return;
    };
    for line in lines[..count].iter() {
        print_capacity_line(out, contract, line);
    }
}

// Prints the book view of an area and a side of a contract that can be viewed: with lines enough it is not refused.
fn print_book<R: Register, S: TextSink>(
    session: &Session<R>,
    contract: u32,
    area: u32,
    side: Side,
    out: &mut S,
)
    requires open { answered (contract_tests (state R.Register.meaning session.now) contract) ≡ Ok tt }
    requires area { area ≤ 15 }
    ensures { let view = BookView (state R.Register.meaning session.now) contract area side in
        HeardBack S.TextSink.hears view out.old out.new }
{
    let mut places = [NO_ORDER; BOOK_LINES];
    let lines = &mut places[..session.book().len()];
    let Ok(count) = book_view(session, contract, area, side, lines) else {
        return;
    };
    for line in lines[..count].iter() {
        print_book_line(out, contract, area, line);
    }
}

/// Prints the views of a contract: its capacity, and then its book, area after area, buys before sells.
/// A contract above 23 is refused by 2 and a closed one by 3, and then nothing is printed.
pub fn screen<R: Register, S: TextSink>(
    session: &Session<R>,
    contract: u32,
    out: &mut S,
) -> Result<(), SessionFault>
    ensures screen { let market = state R.Register.meaning session.now in
        Screened S.TextSink.hears market contract out.old result out.new }
    ensures only { OneScreen (state R.Register.meaning session.now) contract }
    ensures back { OnOk result (ScreenReadsBack (state R.Register.meaning session.now) contract) }
{
    session.check_view(contract)?;
    print_capacities(session, contract, out);
    for area in 0..AREAS {
        print_book(session, contract, area, Side::Buy, out);
        print_book(session, contract, area, Side::Sell, out);
    }
    Ok(())
}
