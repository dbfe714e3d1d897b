// A short alarm means what an alarm means, but can be set only so many ticks past its clock.
ghost use Rattle.std.specs.Prelude.{◌≡◌, ℕ, ◌<◌};
ghost use Rattle.alarms.specs.Meaning.{SetsWithin};

use crate::alarm_device::AlarmDevice;
use crate::faults::AlarmFault;
use times::Measured;

pub trait ShortAlarm<T: Measured>: AlarmDevice<T> {
    ghost reach: { ℕ };

    fn reach() -> u32
        ensures { result ≡ reach };

    fn set(&mut self, t: T) -> Result<(), AlarmFault>
        ensures { SetsWithin T.Time.before Self.clock Self.due self.old self.new T.Measured.place reach t result };

    ghost reaching: { 0 < reach };
}
