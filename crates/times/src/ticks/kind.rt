ghost use Rattle.std.specs.Prelude.{◌≡◌};
ghost use Rattle.std.specs.Option.{ok_or};
ghost use Rattle.times.specs.Ticks.{tick_place, tick_before, tick_at, last_tick};
ghost use Rattle.times.specs.declared.faults.TimeFault.TheVariants.{NoSuchTime};
ghost use Rattle.times.specs.ByPlace.{by_place};
ghost use Rattle.times.specs.TickTimes.{tick_same, tick_places, tick_plain_form};

use super::Tick;
use crate::faults::TimeFault;
use crate::order::Time;
use crate::places::Measured;
use crate::plain::Plain;

const LAST: u64 = 0x3fff_ffff_ffff_ffff;

impl Tick {
    pub fn new(place: u64) -> Result<Self, TimeFault>
        ensures { result ≡ ok_or (tick_at place) NoSuchTime }
    {
        if place > LAST {
            return Err(TimeFault::NoSuchTime);
        }
        Ok(Tick { place })
    }
}

impl Time for Tick {
    ghost before = { tick_before };

    ghost ordered = { by_place tick_place tick_same };

    fn before(self, other: Tick) -> bool {
        self < other
    }
}

impl Measured for Tick {
    ghost place = { tick_place };

    ghost at = { tick_at };

    ghost last = { last_tick };

    ghost placed = { tick_places };

    fn place(self) -> u64 {
        self.place
    }

    fn checked_ahead(self, n: u32) -> Option<Tick> {
        Tick::new(self.place + u64::from(n)).ok()
    }

    fn last() -> Tick {
        Tick { place: LAST }
    }
}

impl Plain for Tick {
    ghost plain = { tick_place };

    ghost reads = { tick_at };

    ghost inverse = { tick_plain_form };

    fn to_plain(self) -> u64 {
        self.place
    }

    fn from_plain(form: u64) -> Result<Tick, TimeFault> {
        Tick::new(form)
    }
}
