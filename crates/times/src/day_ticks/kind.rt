ghost use Rattle.std.specs.Prelude.{◌≡◌, ◌+◌, ◌/◌, ◌%◌};
ghost use Rattle.std.specs.Option.{ok_or};
ghost use Rattle.times.specs.DayTicks.{day_tick_place, day_tick_before, day_tick_of, day_tick_at, day_tick_plain, day_tick_reads, last_day_tick};
ghost use Rattle.times.specs.declared.faults.TimeFault.TheVariants.{NoSuchTime};
ghost use Rattle.times.specs.ByPlace.{by_place};
ghost use Rattle.times.specs.DayTimes.{day_tick_same, day_tick_places, day_tick_plain_form};

use super::DayTick;
use crate::faults::TimeFault;
use crate::order::Time;
use crate::places::Measured;
use crate::plain::Plain;

const TICKS_A_DAY: u64 = 8_640_000;
// The weight of the upper 32 bits.
const UPPER: u64 = 0x1_0000_0000;

impl DayTick {
    pub fn new(day: u32, tick: u32) -> Result<Self, TimeFault>
        ensures { result ≡ ok_or (day_tick_of day tick) NoSuchTime }
    {
        if u64::from(tick) >= TICKS_A_DAY {
            return Err(TimeFault::NoSuchTime);
        }
        Ok(DayTick { day, tick })
    }

    // The day and the tick n ticks on: those past midnight carry over, several days at once.
    fn carry(self, n: u32) -> (u64, u32)
        ensures day { result.0 ≡ (day_tick_place self + n) / 8640000 }
        ensures tick { result.1 ≡ (day_tick_place self + n) % 8640000 }
    {
        let ticks = u64::from(self.tick) + u64::from(n);
        let day = u64::from(self.day) + ticks / TICKS_A_DAY;
        (day, (ticks % TICKS_A_DAY) as u32)
    }
}

impl Time for DayTick {
    ghost before = { day_tick_before };

    ghost ordered = { by_place day_tick_place day_tick_same };

    fn before(self, other: DayTick) -> bool {
        self < other
    }
}

impl Measured for DayTick {
    ghost place = { day_tick_place };

    ghost at = { day_tick_at };

    ghost last = { last_day_tick };

    ghost placed = { day_tick_places };

    fn place(self) -> u64 {
        u64::from(self.day) * TICKS_A_DAY + u64::from(self.tick)
    }

    fn checked_ahead(self, n: u32) -> Option<DayTick> {
        let (day, tick) = self.carry(n);
        let day = u32::try_from(day).ok()?;
        Some(DayTick { day, tick })
    }

    fn last() -> DayTick {
        DayTick {
            day: u32::MAX,
            tick: (TICKS_A_DAY - 1) as u32,
        }
    }
}

impl Plain for DayTick {
    ghost plain = { day_tick_plain };

    ghost reads = { day_tick_reads };

    ghost inverse = { day_tick_plain_form };

    fn to_plain(self) -> u64 {
        u64::from(self.day) * UPPER + u64::from(self.tick)
    }

    fn from_plain(form: u64) -> Result<DayTick, TimeFault> {
        DayTick::new((form / UPPER) as u32, (form % UPPER) as u32)
    }
}
