use crate::lent::two_timers;
use crate::reference::{Entry, rank};
use crate::trial::Trial;
use slot_heaps::slots::Slot;
use std::test::Fail;
use times::*;

#[test]
fn ranks_go_by_time_and_number(rt: HostRuntime) {
    let early = Entry { soft: 1, hard: 2 };
    let late = Entry { soft: 2, hard: 2 };
    assert!(rt; rank(early.soft, 5) < rank(late.soft, 0));
    assert!(rt; rank(late.hard, 0) < rank(early.hard, 5));
}

#[test]
fn firsts_are_least_at_ticks(rt: HostRuntime) -> Result<(), Fail> {
    let mut slots = [Slot::vacant(Tick::last()); 40];
    Trial::over(&mut slots[..1]).play(&rt, 1)?;
    Trial::over(&mut slots).play(&rt, 2)
}

#[test]
fn firsts_are_least_at_day_ticks(rt: HostRuntime) -> Result<(), Fail> {
    let mut slots = [Slot::vacant(DayTick::last()); 100];
    Trial::over(&mut slots[..2]).play(&rt, 3)?;
    Trial::over(&mut slots).play(&rt, 4)
}

// The first number by hard time, the first by soft time, and the one that is taken out.
#[test]
fn slots_serve_without_the_type(rt: HostRuntime) {
    let last = Tick::last();
    let mut slots = [Slot::vacant(last); 3];
    assert_eq!(rt;
        two_timers(&mut slots, last, last),
        Some((3, 3, 3)),
        "at one time"
    );
    assert_eq!(rt;
        two_timers(&mut slots[..1], last, last),
        None,
        "room for one"
    );
    let last = DayTick::last();
    let early = DayTick::new(1, 0).unwrap_or(last);
    let mut slots = [Slot::vacant(last); 2];
    assert_eq!(rt;
        two_timers(&mut slots, early, last),
        Some((3, 5, 3)),
        "one earlier"
    );
}
