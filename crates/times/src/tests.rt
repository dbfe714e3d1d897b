// Both kinds of time at their ends and over midnight.
use crate::*;
use std::test::Fail;

const LAST_TICK: u64 = 0x3fff_ffff_ffff_ffff;

const LAST_DAY: u32 = 0xffff_ffff;

#[test]
fn ticks(rt: HostRuntime) -> Result<(), Fail> {
    let last = Tick::new(LAST_TICK)?;
    let near = Tick::new(LAST_TICK - 5)?;
    assert_eq!(rt; near.checked_ahead(5), Some(last));
    assert_eq!(rt; near.checked_ahead(6), None);
    assert_eq!(rt; near.ahead(6), last);
    assert_eq!(rt; last.ahead(0), last);
    assert!(rt; near.before(last) && !last.before(last));
    assert_eq!(rt; Tick::from_plain(last.to_plain())?, last);
    assert_eq!(rt; Tick::new(LAST_TICK + 1), Err(TimeFault::NoSuchTime));
    assert_eq!(rt; TimeFault::NoSuchTime.number(), 0x23);
    Ok(())
}

#[test]
fn day_ticks(rt: HostRuntime) -> Result<(), Fail> {
    // day and tick, ticks ahead, day and tick there
    let rows = [
        (0, 8_639_999, 1, 1, 0),
        (0, 8_639_999, 8_640_001, 2, 0),
        (7, 5, 0xffff_ffff, 504, 887_300),
        (LAST_DAY, 8_639_998, 1, LAST_DAY, 8_639_999),
        (LAST_DAY, 8_639_998, 2, LAST_DAY, 8_639_999),
    ];
    for (day, tick, n, to_day, to_tick) in rows {
        let from = DayTick::new(day, tick)?;
        let to = DayTick::new(to_day, to_tick)?;
        assert_eq!(rt; from.ahead(n), to);
        assert_eq!(rt; from.before(to), n > 0);
        assert_eq!(rt; DayTick::from_plain(from.to_plain())?, from);
    }
    assert_eq!(rt; DayTick::new(LAST_DAY, 8_639_999)?.checked_ahead(1), None);
    assert_eq!(rt; DayTick::new(0, 8_640_000), Err(TimeFault::NoSuchTime));
    assert_eq!(rt; DayTick::from_plain(8_640_000), Err(TimeFault::NoSuchTime));
    assert_eq!(rt; DayTick::from_plain(0x1_0000_0002)?, DayTick::new(1, 2)?);
    Ok(())
}
