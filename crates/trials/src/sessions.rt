// Sessions as their callers have them: rounds stepped and run to their end, and the passes that refusals hand back.
ghost use Rattle.std.specs.Prelude.{◌≡◌, Some};

use book::rows::{Kind, OrderTerms, Side};
use capacity::direction::Direction;
use capacity::figures::Figures;
use capacity::map::ConnectorMap;
use capacity::reserve::Reserve;
use capacity::table::FullTable;
use session::entries::{Change, Entry};
use session::finishing::TradeLog;
use session::passes::{QuietPass, Refused, RoundPass};
use session::state::Session;
use session::steps::Step;
use std::process::Abort;
use std::test::Fail;
use trades::Trade;

type Market = Session<Reserve<FullTable>>;

const CONTRACT: u32 = 3;

// Keeps the last trade that it is handed.
#[derive(Drop)]
struct LastTrade {
    trade: Option<Trade>,
}

impl TradeLog for LastTrade {
    ghost notes = { λ a x b. b.trade ≡ Some x.trade };

    fn note(&mut self, trade: &Trade, _route: &[u32]) {
        self.trade = Some(*trade);
    }
}

// Runs a round to its end, and gives its last trade.
fn run_out(rt: &impl Abort, session: &mut Market, round: RoundPass) -> (Option<Trade>, QuietPass) {
    let mut log = LastTrade { trade: None };
    match session.finish_round(round, &mut log) {
        Ok(pass) => (log.trade, pass),
        Err(_) => panic!(rt; "round refused"),
    }
}

fn stepped(rt: &impl Abort, session: &mut Market, round: RoundPass) -> (Trade, RoundPass) {
    let mut places = [0u32; 16];
    match session.step(round, &mut places) {
        Ok(Step::Traded { trade, pass }) => (trade, pass),
        _ => panic!(rt; "no trade"),
    }
}

fn done(rt: &impl Abort, session: &mut Market, round: RoundPass) -> QuietPass {
    let mut places = [0u32; 16];
    match session.step(round, &mut places) {
        Ok(Step::Done(pass)) => pass,
        _ => panic!(rt; "not done"),
    }
}

fn plain(side: Side, limit: i32) -> OrderTerms {
    OrderTerms {
        kind: Kind::Non,
        side,
        limit,
        quantity: 50,
        peak: 0,
        delta: 0,
    }
}

fn entered_in(
    session: &mut Market,
    pass: QuietPass,
    area: u32,
    number: u32,
    terms: OrderTerms,
) -> Result<RoundPass, Fail> {
    let entry = Entry {
        number,
        member: 7,
        contract: CONTRACT,
        area,
        terms,
    };
    session
        .enter(pass, &entry)
        .map_err(|_| Fail::new("entry refused"))
}

// Enters an order in area 0.
fn entered(
    session: &mut Market,
    pass: QuietPass,
    number: u32,
    terms: OrderTerms,
) -> Result<RoundPass, Fail> {
    entered_in(session, pass, 0, number, terms)
}

// Enters an order that meets none.
fn rested(
    rt: &impl Abort,
    session: &mut Market,
    pass: QuietPass,
    number: u32,
    terms: OrderTerms,
) -> Result<QuietPass, Fail> {
    let round = entered(session, pass, number, terms)?;
    Ok(done(rt, session, round))
}

// From area 0 to another.
fn way(to: u32) -> Direction {
    Direction {
        contract: CONTRACT,
        from: 0,
        to,
    }
}

// 100 can flow there, and nothing back.
fn noticed(
    rt: &impl Abort,
    session: &mut Market,
    pass: QuietPass,
    to: u32,
) -> Result<QuietPass, Fail> {
    let figures = Figures {
        ntc: 100,
        ntc_back: 0,
        aac: 0,
        aac_back: 0,
    };
    let round = session
        .notice(pass, way(to), figures)
        .map_err(|_| Fail::new("notice refused"))?;
    Ok(done(rt, session, round))
}

// Order 1 to this limit and quantity.
fn change(member: u32, limit: i32, quantity: u32) -> Change {
    Change {
        number: 1,
        member,
        limit,
        quantity,
    }
}

fn changed(session: &mut Market, pass: QuietPass, change: &Change) -> Result<RoundPass, Fail> {
    session
        .change(pass, change)
        .map_err(|_| Fail::new("change refused"))
}

// The number that a change is refused by, and the pass that it hands back.
fn change_refused(
    rt: &impl Abort,
    session: &mut Market,
    pass: QuietPass,
    change: &Change,
) -> (u32, QuietPass) {
    match session.change(pass, change) {
        Err(Refused { fault, pass }) => (fault.number(), pass),
        Ok(_) => panic!(rt; "changed"),
    }
}

// A pass of another session is refused and comes back, and is of use in its own.
#[test]
fn pass_of_another_session(rt: HostRuntime) -> Result<(), Fail> {
    let (mut session, _pass) = Session::begin(7, ConnectorMap::new().into_register());
    let (mut other, pass) = Session::begin(8, ConnectorMap::new().into_register());
    let pass = match session.close(pass, CONTRACT) {
        Err(Refused { fault, pass }) => {
            assert_eq!(rt; fault.number(), 1);
            pass
        }
        Ok(_) => return Err(Fail::new("closed")),
    };
    let round = entered(&mut other, pass, 1, plain(Side::Buy, 4_000))?;
    let round = match session.step(round, &mut [0u32; 16]) {
        Err(Refused { fault, pass }) => {
            assert_eq!(rt; fault.number(), 1);
            pass
        }
        Ok(_) => panic!(rt; "stepped"),
    };
    let pass = done(&rt, &mut other, round);
    assert!(rt; other.close(pass, CONTRACT).is_ok());
    Ok(())
}

// Changed to the limit of another sell it is the newer of the two; changed to meet a buy it trades at once.
#[test]
fn changed_iceberg_is_newest(rt: HostRuntime) -> Result<(), Fail> {
    let (mut session, pass) = Session::begin(7, ConnectorMap::new().into_register());
    let iceberg = OrderTerms {
        kind: Kind::Ice,
        side: Side::Sell,
        limit: 5_000,
        quantity: 80,
        peak: 50,
        delta: 100,
    };
    let pass = rested(&rt, &mut session, pass, 1, iceberg)?;
    let pass = rested(&rt, &mut session, pass, 2, plain(Side::Sell, 4_000))?;
    let (unknown, pass) = change_refused(&rt, &mut session, pass, &change(8, 4_000, 40));
    let (slices, pass) = change_refused(&rt, &mut session, pass, &change(7, 4_000, 40));
    assert_eq!(rt; unknown, 9);
    assert_eq!(rt; slices, 7);
    let round = changed(&mut session, pass, &change(7, 4_000, 120))?;
    let pass = done(&rt, &mut session, round);
    let round = entered(&mut session, pass, 3, plain(Side::Buy, 4_000))?;
    let (trade, round) = stepped(&rt, &mut session, round);
    let pass = done(&rt, &mut session, round);
    assert_eq!(rt; trade.sell, 2);
    let pass = rested(&rt, &mut session, pass, 4, plain(Side::Buy, 3_000))?;
    let round = changed(&mut session, pass, &change(7, 3_000, 120))?;
    let (last, _pass) = run_out(&rt, &mut session, round);
    let trade = last.ok_or("no trade")?;
    assert_eq!(rt; trade.sell, 1);
    assert_eq!(rt; trade.quantity, 50);
    assert_eq!(rt; session.resting(), 1);
    Ok(())
}

// No more than was noticed is granted; all of it is, and that opens the way back, where both orders trade out.
#[test]
fn grant_leaves_none_resting(rt: HostRuntime) -> Result<(), Fail> {
    let mut map = ConnectorMap::new();
    let _ = map.connect(0, 1, 0, 0);
    let (mut session, pass) = Session::begin(7, map.into_register());
    let pass = noticed(&rt, &mut session, pass, 1)?;
    let round = entered_in(&mut session, pass, 1, 1, plain(Side::Sell, 4_000))?;
    let pass = done(&rt, &mut session, round);
    let pass = rested(&rt, &mut session, pass, 2, plain(Side::Buy, 5_000))?;
    let pass = match session.request(pass, way(1), 101) {
        Err(Refused { fault, pass }) => {
            assert_eq!(rt; fault.number(), 13);
            pass
        }
        Ok(_) => panic!(rt; "granted"),
    };
    let round = session
        .request(pass, way(1), 100)
        .map_err(|_| Fail::new("request refused"))?;
    let (trade, round) = stepped(&rt, &mut session, round);
    let _pass = done(&rt, &mut session, round);
    assert_eq!(rt; trade.quantity, 50);
    assert_eq!(rt; trade.price, 4_000);
    assert_eq!(rt; session.resting(), 0);
    Ok(())
}

// The last sell goes to the better of two buys beyond a border; the other buy and the dearer sell stay.
#[test]
fn better_price_leaves_two_resting(rt: HostRuntime) -> Result<(), Fail> {
    let mut map = ConnectorMap::new();
    let _ = map.connect(0, 1, 0, 0);
    let _ = map.connect(0, 2, 0, 0);
    let (mut session, pass) = Session::begin(7, map.into_register());
    let pass = noticed(&rt, &mut session, pass, 1)?;
    let pass = noticed(&rt, &mut session, pass, 2)?;
    let round = entered_in(&mut session, pass, 1, 1, plain(Side::Buy, 5_000))?;
    let pass = done(&rt, &mut session, round);
    let round = entered_in(&mut session, pass, 2, 2, plain(Side::Buy, 6_000))?;
    let pass = done(&rt, &mut session, round);
    let round = entered_in(&mut session, pass, 1, 3, plain(Side::Sell, 5_500))?;
    let pass = done(&rt, &mut session, round);
    let round = entered(&mut session, pass, 4, plain(Side::Sell, 4_500))?;
    let (last, _pass) = run_out(&rt, &mut session, round);
    let trade = last.ok_or("no trade")?;
    assert_eq!(rt; trade.buyer, 2);
    assert_eq!(rt; trade.price, 6_000);
    assert_eq!(rt; session.resting(), 2);
    Ok(())
}
