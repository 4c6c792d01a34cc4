// The book view: the orders of a side that a path joins to an area, by rank.
ghost use Rattle.std.specs.Prelude.{◌≡◌, length, Decides};
ghost use Rattle.book.specs.Places.{orders};
ghost use Rattle.flows.specs.Flows.{open_in};
ghost use Rattle.routes.specs.Grids.{opens};
ghost use Rattle.session.specs.State.{state};
ghost use Rattle.views.specs.Books.{way, Wanted, Shows, BookLines, AsRanked, area_tests};
ghost use Rattle.views.specs.Single.{one_shown};
ghost use Rattle.views.specs.Ranks.{book_before};
ghost use Rattle.views.specs.Views.{Viewed, OnlyView};

use crate::lines::BookLine;
use crate::view::{View, fill};
use book::places::Book;
use book::rows::{Kind, Order, Side};
use capacity::register::Register;
use flows::{least_along, open_grid};
use routes::Grid;
use session::faults::SessionFault;
use session::state::Session;

// What a view is asked for.
#[derive(Clone, Copy)]
struct Asked {
    contract: u32,
    area: u32,
    side: Side,
}

impl Asked {
    // Whether it is an order of the contract and side that is not IOC.
    fn wants(&self, order: &Order) -> bool
        ensures { Decides result (Wanted self.now.contract self.now.side order.now) }
    {
        order.contract == self.contract && order.side == self.side && order.kind != Kind::Ioc
    }

    // Where a path must lead from, and where to.
    fn ends(&self, area: u32) -> (u32, u32)
        ensures { result ≡ way self.now.side self.now.area area }
    {
        match self.side {
            Side::Buy => (self.area, area),
            Side::Sell => (area, self.area),
        }
    }
}

// The book, with what is open in the contract that is asked for.
#[derive(Drop)]
struct Offers<'a, R: Register> {
    book: &'a Book,
    register: &'a R,
    grid: Grid,
    asked: Asked,
    ghost opened: { opens grid ≡ open_in (R.Register.meaning register.now) asked.contract },
}

impl<'a, R: Register> View for Offers<'a, R> {
    type Line = BookLine;

    ghost places = { λ v. length (orders v.book.now) };

    ghost shows = { λ v. Shows (R.Register.meaning v.register.now) (orders v.book.now) v.asked.contract v.asked.area v.asked.side };

    fn places(&self) -> usize {
        self.book.len()
    }

    // The line of the order at a place, if the view shows it.
    fn line(&self, place: usize) -> Option<BookLine> {
        let order = self.book.order(place)?;
        if !self.asked.wants(&order) {
            return None;
        }
        let (from, to) = self.asked.ends(order.area);
        let route = self.grid.route(from, to)?;
        let least = least_along(self.register, self.asked.contract, &route, order.shown);
        Some(BookLine {
            side: self.asked.side,
            limit: order.limit,
            place,
            quantity: least,
        })
    }

    ghost one = { λ v. one_shown (R.Register.meaning v.register.now) (orders v.book.now) v.asked.contract v.asked.area v.asked.side };
}

// Lists the buys that can be reached from an area, or the sells that reach it; no line is written if there are too few.
// The route of each order of the contract and side is sought twice: at most 256 routes.
pub fn book_view<R: Register>(
    session: &Session<R>,
    contract: u32,
    area: u32,
    side: Side,
    lines: &mut [BookLine],
) -> Result<usize, SessionFault>
    ensures view { Viewed book_before (area_tests (state R.Register.meaning session.now) contract area) (BookLines (state R.Register.meaning session.now) contract area side) lines.old result lines.new }
    ensures only { OnlyView book_before (area_tests (state R.Register.meaning session.now) contract area) (BookLines (state R.Register.meaning session.now) contract area side) lines.old result lines.new }
    ensures ranks { AsRanked (state R.Register.meaning session.now) contract area side }
{
    session.check_view_in(contract, area)?;
    let register = session.register();
    let offers = Offers {
        book: session.book(),
        register,
        grid: open_grid(register, contract),
        asked: Asked {
            contract,
            area,
            side,
        },
    };
    fill(&offers, lines)
}
