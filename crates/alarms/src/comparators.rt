// The comparator holds the compare time itself, at any kind of time.
ghost use Rattle.std.specs.Prelude.{◌≡◌, None};
ghost use Rattle.alarms.specs.Comparators.{compare_due};

use crate::alarm_device::AlarmDevice;
use crate::faults::{AlarmFault, Passage};
use crate::meaning::Alarm;
use crate::steps::ring_before;
use times::Time;

#[derive(Drop)]
pub struct Comparator<T> {
    clock: T,
    compare: Option<T>,
}

impl<T: Time> Comparator<T> {
    pub fn new(clock: T) -> Self
        ensures clock { result.clock ≡ clock }
        ensures due { compare_due T.Time.before result.clock result.compare ≡ None }
    {
        Comparator {
            clock,
            compare: None,
        }
    }
}

impl<T: Time> AlarmDevice<T> for Comparator<T> {
    ghost clock = { λ a. a.clock };

    ghost due = { λ a. compare_due T.Time.before a.clock a.compare };

    fn clock(&self) -> T {
        self.clock
    }

    fn due(&self) -> Option<T> {
        self.compare.filter(|t| !t.before(self.clock))
    }

    fn clear(&mut self) {
        self.compare = None;
    }

    fn pass(&mut self, t: T) -> Result<Passage, AlarmFault> {
        match ring_before(self.clock, self.due(), t)? {
            Some(ring) => {
                *self = Comparator::new(ring);
                Ok(Passage::Rang)
            }
            None => {
                self.clock = t;
                Ok(Passage::Arrived)
            }
        }
    }
}

impl<T: Time> Alarm<T> for Comparator<T> {
    fn set(&mut self, t: T) -> Result<(), AlarmFault> {
        if t.before(self.clock) {
            return Err(AlarmFault::BeforeClock);
        }
        self.compare = Some(t);
        Ok(())
    }
}
