// A worked list of calls: a notice, two orders that trade across the border, and a withdrawal that is refused; and calls and steps
// made one by one, some with a pass of another session or over too few places.
ghost use Rattle.std.specs.Prelude.{◌≡◌, ◌+◌, ◌%◌, ◌^◌, Some};

use crate::playing::{play, play_into};
use crate::sinks::EventSink;
use book::rows::{Kind, OrderTerms, Side};
use capacity::direction::Direction;
use capacity::figures::Figures;
use capacity::map::ConnectorMap;
use capacity::register::Register;
use capacity::reserve::Reserve;
use capacity::table::FullTable;
use events::calls::Call;
use events::events::Event;
use events::making::Left;
use history::carrying::{make, step};
use routes::ROUTE_PLACES;
use session::entries::Entry;
use session::faults::SessionFault;
use session::passes::{QuietPass, RoundPass};
use session::state::Session;
use std::process::Abort;
use std::test::Fail;

type Market = Session<Reserve<FullTable>>;

const CONTRACT: u32 = 3;

fn order(number: u32, side: Side, area: u32) -> Call {
    let terms = OrderTerms {
        kind: Kind::Non,
        side,
        limit: 5_000,
        quantity: 50,
        peak: 0,
        delta: 0,
    };
    Call::Enter(Entry {
        number,
        member: 7,
        contract: CONTRACT,
        area,
        terms,
    })
}

fn notice() -> Call {
    Call::Notice {
        direction: Direction {
            contract: CONTRACT,
            from: 0,
            to: 1,
        },
        figures: Figures {
            ntc: 100,
            ntc_back: 0,
            aac: 0,
            aac_back: 0,
        },
    }
}

fn calls() -> [Call; 4] {
    [
        notice(),
        order(1, Side::Sell, 0),
        order(2, Side::Buy, 1),
        Call::Withdraw {
            number: 1,
            member: 7,
        },
    ]
}

// Areas 0 and 1 are joined.
fn border() -> ConnectorMap {
    let mut map = ConnectorMap::new();
    let _ = map.connect(0, 1, 0, 0);
    map
}

#[test]
fn trade_across_the_border(rt: HostRuntime) -> Result<(), Fail> {
    let events = play(rt.alloc(), 9, border().into_register(), &calls()).events?;
    assert!(rt; events.len() == 8);
    match events[5] {
        Event::Stepped {
            pass,
            places: _,
            answer: Ok(Some(traded)),
        } => {
            assert_eq!(rt; pass, 9);
            assert_eq!(rt; traded.trade.quantity, 50);
            assert_eq!(rt; traded.route[1], 1);
            assert_eq!(rt; traded.route[2], 0);
        }
        _ => return Err(Fail::new("no trade")),
    }
    match events[7] {
        Event::Called {
            pass: _,
            call: _,
            answer: Err(fault),
        } => {
            assert_eq!(rt; fault.number(), 9);
            Ok(())
        },
        _ => Err(Fail::new("not refused")),
    }
}

// A sink that takes no heap: how many events it heard, and the last one.
#[derive(Clone, Copy)]
struct Counter {
    events: u32,
    last: Option<Event>,
}

impl EventSink for Counter {
    ghost hears = { λ a e b. (b.events ≡ (a.events + 1) % 2 ^ 32) × (b.last ≡ Some e) };

    fn hear(&mut self, event: &Event) {
        self.events = self.events.wrapping_add(1);
        self.last = Some(*event);
    }
}

// What is left of 100 after a trade of 50.
#[test]
fn heard_by_a_counter(rt: HostRuntime) -> Result<(), Fail> {
    let counter = Counter {
        events: 0,
        last: None,
    };
    let ended = play_into(9, border().into_register(), &calls(), counter);
    assert_eq!(rt; ended.sink.events, 8);
    match ended.sink.last {
        Some(
            Event::Called {
                pass: 9,
                call: Call::Withdraw { .. },
                answer: Err(fault),
            },
        ) => assert_eq!(rt; fault.number(), 9),
        _ => return Err(Fail::new("not the refused withdrawal")),
    }
    let way = Direction {
        contract: CONTRACT,
        from: 0,
        to: 1,
    };
    assert_eq!(rt; ended.register.atc(way), Some(50));
    Ok(())
}

fn number<T: Drop>(answer: Result<T, SessionFault>) -> Option<u32> {
    answer.err().map(|fault| fault.number())
}

fn quiet(rt: &impl Abort, left: Left) -> QuietPass {
    match left {
        Left::Quiet(pass) => pass,
        Left::Round(_pass) => panic!(rt; "a round"),
    }
}

fn round(rt: &impl Abort, left: Left) -> RoundPass {
    match left {
        Left::Round(pass) => pass,
        Left::Quiet(_) => panic!(rt; "no round"),
    }
}

// A session over the border, and the pass of the round that its first order began.
fn begun(rt: &impl Abort, number: u32) -> (Market, RoundPass) {
    let (mut session, pass) = Session::begin(number, border().into_register());
    let (_, left) = make(&mut session, pass, &order(1, Side::Sell, 0));
    (session, round(rt, left))
}

// The last step of a round.
fn done(rt: &impl Abort, session: &mut Market, pass: RoundPass) -> QuietPass {
    let mut places = [0; ROUTE_PLACES];
    let (answer, left) = step(session, pass, &mut places);
    assert!(rt; matches!(answer, Ok(None)));
    quiet(rt, left)
}

// A pass of another session is refused by 1 and comes back, and nothing changes.
#[test]
fn passes_of_another_session(rt: HostRuntime) {
    let (mut session, pass) = begun(&rt, 1);
    let (mut other, foreign) = begun(&rt, 2);
    let mut places = [99; 20];
    let (answer, left) = step(&mut session, foreign, &mut places);
    assert_eq!(rt; number(answer), Some(1));
    assert_eq!(rt; places, [99; 20]);
    let foreign = done(&rt, &mut other, round(&rt, left));
    done(&rt, &mut session, pass);
    let (answer, left) = make(&mut session, foreign, &order(2, Side::Buy, 0));
    assert_eq!(rt; number(answer), Some(1));
    assert_eq!(rt; session.resting(), 1);
    let close = Call::Close { contract: CONTRACT };
    let (answer, left) = make(&mut other, quiet(&rt, left), &close);
    assert!(rt; matches!(answer, Ok(Some(1))));
    let _ = quiet(&rt, left);
}

// A step over 15 places is refused by 15.
#[test]
fn too_few_places(rt: HostRuntime) {
    let (mut session, pass) = begun(&rt, 1);
    let mut places = [99; 15];
    let (answer, left) = step(&mut session, pass, &mut places);
    assert_eq!(rt; number(answer), Some(15));
    assert_eq!(rt; places, [99; 15]);
    done(&rt, &mut session, round(&rt, left));
}

// Over 20 places the route of one area fills the first.
#[test]
fn more_places_than_a_route(rt: HostRuntime) {
    let (mut session, pass) = begun(&rt, 1);
    let pass = done(&rt, &mut session, pass);
    let (_, left) = make(&mut session, pass, &order(2, Side::Buy, 0));
    let mut places = [99; 20];
    let (answer, left) = step(&mut session, round(&rt, left), &mut places);
    match answer {
        Ok(Some(traded)) => {
            assert_eq!(rt; traded.trade.quantity, 50);
            assert_eq!(rt; traded.route, [0; 16]);
        }
        _ => panic!(rt; "no trade"),
    }
    assert_eq!(rt; places[0], 0);
    assert_eq!(rt; places[1], 99);
    assert_eq!(rt; places[19], 99);
    done(&rt, &mut session, round(&rt, left));
    assert_eq!(rt; session.resting(), 0);
}
