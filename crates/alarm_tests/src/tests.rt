use crate::play::*;
use crate::tables::*;
use alarm_chains::*;
use alarms::*;
use short_alarms::*;
use std::process::Abort;
use std::test::Fail;
use times::*;

fn play_alarm<T: Plain, A: Alarm<T>>(
    rt: &impl Abort,
    alarm: &mut A,
    rows: &[Row],
) -> Result<(), Fail> {
    play(rt, alarm, rows, |alarm: &mut A, t: T| alarm.set(t))
}

// The same calls on the comparator and on both chains.
fn play_on_each<T: Plain>(rt: &impl Abort, start: u64, rows: &[Row]) -> Result<(), Fail> {
    let clock = T::from_plain(start)?;
    play_alarm(rt, &mut Comparator::new(clock), rows)?;
    play_alarm(rt, &mut ChainedAlarm::new(DownCounter::new(clock)), rows)?;
    play_alarm(rt, &mut ChainedAlarm::new(LowBitMatcher::new(clock)), rows)
}

#[test]
fn every_alarm_alike(rt: HostRuntime) -> Result<(), Fail> {
    play_on_each::<Tick>(&rt, 0, &EVERYWHERE)?;
    play_on_each::<DayTick>(&rt, 0, &EVERYWHERE)?;
    play_on_each::<Tick>(&rt, LAST_TICK - 5_000, &TICKS_END)?;
    play_on_each::<DayTick>(&rt, 8_639_000, &DAYS)?;
    play_on_each::<DayTick>(&rt, LAST_DAY + 8_630_000, &DAYS_END)
}

#[test]
fn short_alarms(rt: HostRuntime) -> Result<(), Fail> {
    let mut counter = DownCounter::new(Tick::new(0)?);
    play(
        &rt,
        &mut counter,
        &COUNTED,
        |short: &mut DownCounter<Tick>, t| short.set(t),
    )?;
    let mut matcher = LowBitMatcher::new(DayTick::new(0, 4_000)?);
    play(
        &rt,
        &mut matcher,
        &MATCHED,
        |short: &mut LowBitMatcher<DayTick>, t| short.set(t),
    )
}

#[test]
fn fault_numbers(rt: HostRuntime) {
    assert_eq!(rt; AlarmFault::BeforeClock.number(), 0x01);
    assert_eq!(rt; AlarmFault::BeyondReach.number(), 0x02);
}

// Rings of the short alarm: a goal three reaches away, the goal itself, and ten years on.
#[test]
fn rings(rt: HostRuntime) -> Result<(), Fail> {
    let start = Tick::new(0)?;
    let mut chain = ChainedAlarm::new(DownCounter::new(start));
    chain.set(Tick::new(196_605)?)?;
    assert_eq!(rt;
        chain.pass_counted(Tick::new(196_605)?)?,
        (Passage::Arrived, 2)
    );
    assert_eq!(rt;
        chain.pass_counted(Tick::new(196_606)?)?,
        (Passage::Rang, 1)
    );
    let mut chain = ChainedAlarm::new(LowBitMatcher::new(start));
    chain.set(Tick::new(31_536_000_000)?)?;
    assert_eq!(rt;
        chain.pass_counted(Tick::new(31_536_000_001)?)?,
        (Passage::Rang, 7_701_099)
    );
    Ok(())
}
