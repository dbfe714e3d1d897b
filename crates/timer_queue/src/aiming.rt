// The alarm, against the least pending hard time.
ghost use Rattle.std.specs.Prelude.{◌≡◌, false};
ghost use Rattle.alarms.specs.Meaning.{NotPast};
ghost use Rattle.queue_rules.specs.Calls.{same_due};
ghost use Rattle.timer_queue.specs.Rings.{Passed};
ghost use Rattle.queue_rules.specs.Timers.{same};

use alarms::{Alarm, AlarmDevice, Passage};
use times::Time;

// Whether two times are one: neither is before the other.
fn is_same<T: Time>(a: T, b: T) -> bool
    ensures { result ≡ same T.Time.before a b }
{
    !(a.before(b) || b.before(a))
}

// Whether the alarm is due at this time, or not due where there is none.
pub(crate) fn is_due<T: Time, A: Alarm<T>>(alarm: &A, least: Option<T>) -> bool
    ensures value { result ≡ same_due T.Time.before (A.AlarmDevice.due alarm.now) least }
    ensures ahead { NotPast T.Time.before (A.AlarmDevice.clock alarm.now) (A.AlarmDevice.due alarm.now) }
{
    match (alarm.due(), least) {
        (None, None) => true,
        (Some(due), Some(hard)) => is_same(due, hard),
        _ => false,
    }
}

// Leaves the alarm due at this time, or not due where there is none. It is told only what it does not hold yet.
pub(crate) fn aim<T: Time, A: Alarm<T>>(alarm: &mut A, least: Option<T>)
    ensures clock { A.AlarmDevice.clock alarm.new ≡ A.AlarmDevice.clock alarm.old }
    ensures due { NotPast T.Time.before (A.AlarmDevice.clock alarm.old) least → A.AlarmDevice.due alarm.new ≡ least }
{
    if is_due(alarm, least) {
        return;
    }
    match least {
        Some(hard) => {
            // Not refused: no pending hard time is before the clock.
            let _ = alarm.set(hard);
        }
        None => alarm.clear(),
    }
}

// Lets the alarm pass to t, and answers whether it rang on the way.
pub(crate) fn rings<T: Time, A: Alarm<T>>(alarm: &mut A, t: T) -> bool
    ensures { T.Time.before t (A.AlarmDevice.clock alarm.old) ≡ false → Passed T.Time.before (A.AlarmDevice.due alarm.old) t (A.AlarmDevice.clock alarm.new) (A.AlarmDevice.due alarm.new) result }
{
    matches!(alarm.pass(t), Ok(Passage::Rang))
}
