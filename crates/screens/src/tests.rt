// The screen of a session begun afresh, and those that are refused; the program shows a fuller one of samples/market.ctm.
use crate::screen::screen;
use capacity::direction::Direction;
use capacity::figures::Figures;
use capacity::map::ConnectorMap;
use capacity::register::Register;
use reading::text::{TextLog, TextSink};
use session::state::Session;
use std::test::Fail;

const WAY: Direction = Direction {
    contract: 3,
    from: 0,
    to: 1,
};

// 3 MW can flow from 0 to 1, and half a MW is kept back on the way back.
#[test]
fn capacity_and_refusals(rt: HostRuntime) -> Result<(), Fail> {
    let mut map = ConnectorMap::new();
    let _ = map.connect(0, 1, 0, 5);
    let mut register = map.into_register();
    let figures = Figures {
        ntc: 30,
        ntc_back: 0,
        aac: 0,
        aac_back: 0,
    };
    let _ = register.notice(WAY, figures);
    let (mut session, pass) = Session::begin(7, register);
    let mut out = TextLog::new(rt.alloc());
    out.hear(b"> ");
    assert!(rt; screen(&session, 3, &mut out).is_ok());
    match screen(&session, 24, &mut out) {
        Err(fault) => assert_eq!(rt; fault.number(), 2),
        Ok(()) => return Err(Fail::new("shown")),
    }
    let _closing = session.close(pass, 3);
    match screen(&session, 3, &mut out) {
        Err(fault) => assert_eq!(rt; fault.number(), 3),
        Ok(()) => return Err(Fail::new("shown")),
    }
    let text = out.into_text()?;
    assert!(rt; text.as_slice() == b"> A 3 1 0 -0.5\nA 3 0 1 3.0\n".as_slice());
    Ok(())
}
