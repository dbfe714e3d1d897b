// An alarm wakes the processor at its due time, and can be set to any time from its clock on.
ghost use Rattle.alarms.specs.Meaning.{Sets};

use crate::alarm_device::AlarmDevice;
use crate::faults::AlarmFault;
use times::Time;

pub trait Alarm<T: Time>: AlarmDevice<T> {
    fn set(&mut self, t: T) -> Result<(), AlarmFault>
        ensures { Sets T.Time.before Self.clock Self.due self.old self.new t result };
}
