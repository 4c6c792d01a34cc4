// Both views of a small session, as they run.
ghost use Rattle.std.specs.Prelude.{◌≡◌, true, IfOk};
ghost use Rattle.session.specs.State.{state};
ghost use Rattle.session.specs.Steps.{round_here};

use crate::lines::{BookLine, CapacityLine};
use crate::{book_view, capacity_view};
use book::rows::{Kind, OrderTerms, Side};
use capacity::direction::Direction;
use capacity::figures::Figures;
use capacity::map::ConnectorMap;
use capacity::register::Register;
use capacity::reserve::Reserve;
use capacity::table::FullTable;
use session::entries::Entry;
use session::finishing::TradeLog;
use session::passes::{QuietPass, RoundPass};
use session::state::Session;
use std::test::Fail;
use trades::Trade;

type Market = Session<Reserve<FullTable>>;

const CONTRACT: u32 = 3;

// From 0 to 1 30 can flow, and nothing elsewhere.
fn market() -> (Market, QuietPass) {
    let mut map = ConnectorMap::new();
    let _ = map.connect(0, 1, 0, 0);
    let mut register = map.into_register();
    let figures = Figures {
        ntc: 30,
        ntc_back: 0,
        aac: 0,
        aac_back: 0,
    };
    let direction = Direction {
        contract: CONTRACT,
        from: 0,
        to: 1,
    };
    let _ = register.notice(direction, figures);
    Session::begin(7, register)
}

#[derive(Drop)]
struct NoLog {}

impl TradeLog for NoLog {
    ghost notes = { λ a x b. b ≡ a };

    fn note(&mut self, _trade: &Trade, _route: &[u32]) {}
}

fn buy(kind: Kind, number: u32, area: u32, limit: i32) -> Entry {
    let terms = OrderTerms {
        kind,
        side: Side::Buy,
        limit,
        quantity: 50,
        peak: 0,
        delta: 0,
    };
    Entry {
        number,
        member: 1,
        contract: CONTRACT,
        area,
        terms,
    }
}

fn enter<R: Register>(
    session: &mut Session<R>,
    pass: QuietPass,
    entry: &Entry,
) -> Result<RoundPass, Fail>
    ensures { IfOk result (λ p. round_here (state R.Register.meaning session.new) p.number ≡ true) }
{
    session
        .enter(pass, entry)
        .map_err(|_| Fail::new("entry refused"))
}

// Runs a round to its end.
fn run_out<R: Register>(session: &mut Session<R>, pass: RoundPass) -> QuietPass
    requires { round_here (state R.Register.meaning session.old) pass.number ≡ true }
{
    let mut log = NoLog {};
    session.finish_round(pass, &mut log).unwrap()
}

// From area 0: a buy in another area, one in the area itself, and an IOC that is just coming in.
#[test]
fn buys_by_rank(rt: HostRuntime) -> Result<(), Fail> {
    let (mut session, pass) = market();
    let round = enter(&mut session, pass, &buy(Kind::Non, 1, 1, 5_000))?;
    let pass = run_out(&mut session, round);
    let round = enter(&mut session, pass, &buy(Kind::Non, 2, 0, 6_000))?;
    let pass = run_out(&mut session, round);
    let round = enter(&mut session, pass, &buy(Kind::Ioc, 3, 0, 7_000))?;
    let mut lines = [BookLine {
        side: Side::Sell,
        limit: 0,
        place: 9,
        quantity: 0,
    }; 3];
    let viewed = book_view(&session, CONTRACT, 0, Side::Buy, &mut lines);
    let _pass = run_out(&mut session, round);
    assert!(rt; matches!(viewed, Ok(2)));
    assert_eq!(rt;
        (lines[0].limit, lines[0].place, lines[0].quantity),
        (6_000, 1, 50)
    );
    assert_eq!(rt;
        (lines[1].limit, lines[1].place, lines[1].quantity),
        (5_000, 0, 30)
    );
    assert_eq!(rt; lines[2].place, 9);
    Ok(())
}

#[test]
fn least_capacity_first(rt: HostRuntime) {
    let (session, _pass) = market();
    let mut lines = [CapacityLine {
        from: 9,
        to: 9,
        atc: 9,
    }; 3];
    assert!(rt; matches!(capacity_view(&session, CONTRACT, &mut lines), Ok(2)));
    assert_eq!(rt; (lines[0].from, lines[0].to, lines[0].atc), (1, 0, 0));
    assert_eq!(rt; (lines[1].from, lines[1].to, lines[1].atc), (0, 1, 30));
    assert_eq!(rt; lines[2].from, 9);
}

#[test]
fn too_few_lines_stay(rt: HostRuntime) -> Result<(), Fail> {
    let (session, _pass) = market();
    let mut lines = [CapacityLine {
        from: 9,
        to: 9,
        atc: 9,
    }; 1];
    match capacity_view(&session, CONTRACT, &mut lines) {
        Ok(_) => return Err(Fail::new("viewed")),
        Err(fault) => assert_eq!(rt; fault.number(), 15),
    }
    assert_eq!(rt; lines[0].from, 9);
    Ok(())
}
