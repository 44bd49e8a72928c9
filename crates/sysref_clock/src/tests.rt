//! Worked examples.
use super::*;

#[test]
fn captures(rt: HostRuntime) {
    let rows = [
        (2, 8, 0, 3),
        (2, 0, 0, 2),
        (2, 120, 7, 10),
        (2, 120, -7, 10),
        (1, 0, -16, 0),
        (1, 0, -15, 1),
        (0, 32, -32, 0),
    ];
    for (nominal, skew, jitter, tick) in rows {
        assert_eq!(rt;
            capture_tick(nominal, skew, jitter),
            tick,
            "{nominal} {skew} {jitter}"
        );
    }
}

#[test]
fn phases_of_period_4(rt: HostRuntime) {
    // an edge in tick 2, one in tick 7 that is off, and one in tick 10 at a boundary
    let rows = [
        (false, None, None),
        (false, None, None),
        (true, Some(0), None),
        (false, Some(1), None),
        (false, Some(2), None),
        (false, Some(3), None),
        (false, Some(0), None),
        (true, Some(1), Some(1)),
        (false, Some(2), None),
        (false, Some(3), None),
        (true, Some(0), None),
    ];
    let mut clock = LocalClock::new(4);
    for (edge, phase, off) in rows {
        assert_eq!(rt; clock.tick(edge), ClockTick { phase, off });
    }
    clock.clear();
    let forgotten = ClockTick {
        phase: None,
        off: None,
    };
    assert_eq!(rt; clock.tick(false), forgotten);
    assert_eq!(rt; clock.tick(true).phase, Some(0));
}

#[test]
fn period_1(rt: HostRuntime) {
    let mut clock = LocalClock::new(1);
    for (edge, phase) in [
        (false, None),
        (true, Some(0)),
        (true, Some(0)),
        (false, Some(0)),
    ] {
        assert_eq!(rt; clock.tick(edge), ClockTick { phase, off: None });
    }
}
