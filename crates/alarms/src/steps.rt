// A step that devices share.
ghost use Rattle.alarms.specs.Steps.{RingBefore};

use crate::faults::AlarmFault;
use times::Time;

// The due time, where a pass to `t` rings.
pub fn ring_before<T: Time>(clock: T, due: Option<T>, t: T) -> Result<Option<T>, AlarmFault>
    ensures { RingBefore T.Time.before clock due t result }
{
    if t.before(clock) {
        return Err(AlarmFault::BeforeClock);
    }
    Ok(due.filter(|ring| ring.before(t)))
}
