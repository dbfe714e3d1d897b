// A time to be set, within a device's reach.
ghost use Rattle.times.specs.Places.{Agrees};
ghost use Rattle.short_alarms.specs.Reaches.{TicksWithin};

use alarms::AlarmFault;
use times::{Measured, Time};

// The ticks from the clock to `t`, where they are within the reach.
pub(crate) fn ticks_within<T: Measured>(clock: T, t: T, reach: u16) -> Result<u16, AlarmFault>
    ensures value { TicksWithin T.Time.before T.Measured.place T.Measured.at reach clock t result }
    ensures agrees { Agrees T.Time.before T.Measured.place }
{
    let ticks = t
        .place()
        .checked_sub(clock.place())
        .ok_or(AlarmFault::BeforeClock)?;
    // As `ok().filter(..).ok_or(..)` it is no plainer, and its proof did not close.
    match u16::try_from(ticks) {
        Ok(ticks) if ticks <= reach => Ok(ticks),
        _ => Err(AlarmFault::BeyondReach),
    }
}
