// Counter and clock.
use interfaces::source::{Source, StampsSpent};
use sources::clock::Clock;
use sources::counter::Counter;

#[test]
fn clock_at_100(rt: HostRuntime) {
    let mut clock = Clock::new(100);
    assert_eq!(rt; clock.mark(90), 100);
    assert_eq!(rt; clock.next(90), Ok(101));
    assert_eq!(rt; clock.next(200), Ok(200));
    assert_eq!(rt; clock.mark(90), 200);
    assert_eq!(rt; clock.highest(), 200);
}

#[test]
fn late_ticks_count_as_the_last(rt: HostRuntime) {
    let mut clock = Clock::new(0);
    assert_eq!(rt; clock.mark(281_474_976_710_656), 281_474_976_710_655);
    assert_eq!(rt; clock.next(u64::MAX), Ok(281_474_976_710_656));
}

#[test]
fn counter_ignores_the_tick(rt: HostRuntime) {
    let mut counter = Counter::new(7);
    assert_eq!(rt; counter.mark(90), 7);
    assert_eq!(rt; counter.next(90), Ok(8));
    assert_eq!(rt; counter.next(0), Ok(9));
    assert_eq!(rt; counter.highest(), 9);
}

#[test]
fn last_stamp(rt: HostRuntime) {
    let mut counter = Counter::new(u64::MAX - 1);
    assert_eq!(rt; counter.next(0), Ok(u64::MAX));
    assert_eq!(rt; counter.next(0), Err(StampsSpent));
    assert_eq!(rt; counter.mark(0), u64::MAX);
    let mut clock = Clock::new(u64::MAX);
    assert_eq!(rt; clock.next(5), Err(StampsSpent));
    assert_eq!(rt; clock.mark(5), u64::MAX);
}
