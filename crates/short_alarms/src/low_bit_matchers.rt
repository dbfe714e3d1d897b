// The low-bit matcher holds twelve bits, and is due when the clock's place has them for its low bits.
ghost use Rattle.std.specs.Prelude.{◌≡◌, None};
ghost use Rattle.times.specs.Places.{Agrees};
ghost use Rattle.short_alarms.specs.LowBit.{Earliest, match_due, ticks_to_match};
ghost use Rattle.alarms.specs.Meaning.{NotPast};
ghost use Rattle.std.proofs.Common.{rules};

use crate::low_bits::LowBits;
use crate::reaches::ticks_within;
use alarms::{AlarmDevice, AlarmFault, Passage, ShortAlarm, ring_before};
use times::{Measured, Time};

const REACH: u16 = 4_095;

#[derive(Drop)]
pub struct LowBitMatcher<T> {
    clock: T,
    // None while it matches nothing
    low: Option<LowBits>,
}

impl<T: Measured> LowBitMatcher<T> {
    pub fn new(clock: T) -> Self
        ensures clock { result.clock ≡ clock }
        ensures due { match_due T.Measured.place T.Measured.at result.clock result.low ≡ None }
    {
        LowBitMatcher { clock, low: None }
    }
}

// The ticks from a place to the next one that has these low bits.
fn ticks_to_match(place: u64, low: LowBits) -> u32
    ensures { result ≡ ticks_to_match place low }
{
    let passed = (place % 4096) as u32;
    (u32::from(low.value) + 4096 - passed) % 4096
}

impl<T: Measured> AlarmDevice<T> for LowBitMatcher<T> {
    ghost clock = { λ a. a.clock };

    ghost due = { λ a. match_due T.Measured.place T.Measured.at a.clock a.low };

    fn clock(&self) -> T {
        self.clock
    }

    fn due(&self) -> Option<T>
        ensures value { result ≡ match_due T.Measured.place T.Measured.at self.now.clock self.now.low }
        ensures ahead { NotPast T.Time.before self.now.clock result }
        ensures agrees { Agrees T.Time.before T.Measured.place }
        ensures earliest { Earliest T.Time.before T.Measured.place self.now.clock self.now.low result }
    {
        let place = self.clock.place();
        self.clock.checked_ahead(ticks_to_match(place, self.low?))
    }

    fn clear(&mut self) {
        self.low = None;
    }

    // As the comparator passes. One body for both would be given how to start anew and how to go on: no plainer than these lines.
    fn pass(&mut self, t: T) -> Result<Passage, AlarmFault> {
        match ring_before(self.clock, self.due(), t)? {
            Some(ring) => {
                *self = LowBitMatcher::new(ring);
                Ok(Passage::Rang)
            }
            None => {
                self.clock = t;
                Ok(Passage::Arrived)
            }
        }
    }
}

impl<T: Measured> ShortAlarm<T> for LowBitMatcher<T> {
    ghost reach = { 4095 };

    ghost reaching = { Prim.search rules };

    fn reach() -> u32 {
        u32::from(REACH)
    }

    fn set(&mut self, t: T) -> Result<(), AlarmFault> {
        ticks_within(self.clock, t, REACH)?;
        self.low = Some(LowBits::of(t.place()));
        Ok(())
    }
}
