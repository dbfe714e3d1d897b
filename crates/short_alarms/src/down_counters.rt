// The down-counter holds the ticks left; 0 while it runs means due at the clock.
ghost use Rattle.std.specs.Prelude.{◌≡◌, None};
ghost use Rattle.short_alarms.specs.Countdown.{due_in};
ghost use Rattle.std.proofs.Common.{rules};

use crate::reaches::ticks_within;
use alarms::{AlarmDevice, AlarmFault, Passage, ShortAlarm, ring_before};
use times::{Measured, Time};

const REACH: u16 = 65_535;

#[derive(Drop)]
pub struct DownCounter<T> {
    clock: T,
    // None while it stands still
    left: Option<u16>,
}

impl<T: Measured> DownCounter<T> {
    pub fn new(clock: T) -> Self
        ensures clock { result.clock ≡ clock }
        ensures due { due_in T.Measured.place T.Measured.at result.clock result.left ≡ None }
    {
        DownCounter { clock, left: None }
    }
}

impl<T: Measured> AlarmDevice<T> for DownCounter<T> {
    ghost clock = { λ a. a.clock };

    ghost due = { λ a. due_in T.Measured.place T.Measured.at a.clock a.left };

    fn clock(&self) -> T {
        self.clock
    }

    fn due(&self) -> Option<T> {
        self.clock.checked_ahead(u32::from(self.left?))
    }

    fn clear(&mut self) {
        self.left = None;
    }

    fn pass(&mut self, t: T) -> Result<Passage, AlarmFault> {
        match ring_before(self.clock, self.due(), t)? {
            Some(ring) => {
                *self = DownCounter::new(ring);
                Ok(Passage::Rang)
            }
            None => {
                if let Some(ticks) = self.left {
                    // Written anew: changed in place, the proof that the cast fits did not close.
                    let moved = t.place() - self.clock.place();
                    self.left = Some(ticks - moved as u16);
                }
                self.clock = t;
                Ok(Passage::Arrived)
            }
        }
    }
}

impl<T: Measured> ShortAlarm<T> for DownCounter<T> {
    ghost reach = { 65535 };

    ghost reaching = { Prim.search rules };

    fn reach() -> u32 {
        u32::from(REACH)
    }

    fn set(&mut self, t: T) -> Result<(), AlarmFault> {
        self.left = Some(ticks_within(self.clock, t, REACH)?);
        Ok(())
    }
}
