// The map's refusals and the figures of the worked examples, as they run.
use crate::direction::Direction;
use crate::example::{nothing_kept, some_kept};
use crate::map::ConnectorMap;
use crate::register::Register;

// The number of the refusal, none where the connector was added.
fn refusal(map: &mut ConnectorMap, from: u32, to: u32, held: u32) -> Option<u32> {
    map.connect(from, to, held, 0)
        .err()
        .map(|fault| fault.number())
}

#[test]
fn map_refuses(rt: HostRuntime) {
    let mut map = ConnectorMap::new();
    assert_eq!(rt; refusal(&mut map, 3, 3, 100_000), Some(12));
    assert_eq!(rt; refusal(&mut map, 3, 3, 0), Some(16));
    assert_eq!(rt; refusal(&mut map, 3, 16, 0), Some(16));
    assert_eq!(rt; refusal(&mut map, 3, 9, 99_999), None);
    assert_eq!(rt; refusal(&mut map, 9, 3, 0), Some(16));
    assert_eq!(rt; map.count(), 1);
    let there = Direction {
        contract: 0,
        from: 3,
        to: 9,
    };
    let register = map.into_register();
    assert_eq!(rt; register.held(there), Some(99_999));
    assert_eq!(rt; register.atc(there.back()), Some(0));
}

#[test]
fn layers_keep_back(rt: HostRuntime) {
    let (before, later) = nothing_kept();
    assert_eq!(rt; (before.there, before.back), (Some(150), Some(50)));
    assert_eq!(rt; (later.there, later.back), (Some(120), Some(80)));
    let (before, later) = some_kept();
    assert_eq!(rt; (before.there, before.back), (Some(120), Some(50)));
    assert_eq!(rt; (later.there, later.back), (Some(90), Some(80)));
}
