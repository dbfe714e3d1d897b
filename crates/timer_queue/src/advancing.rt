// The wake-ups of an advance: while the alarm rings on the way, the ripe timers fire, and the alarm is set anew.
ghost use Rattle.std.specs.Prelude.{◌≡◌, ◌+◌, ◌≤◌, length};
ghost use Rattle.timer_queue.specs.Held.{held_timers};
ghost use Rattle.timer_queue.specs.Services.{CountedAll, Ready, ServedAll};

use crate::aiming::{aim, rings};
use crate::serving::{fire, least};
use alarms::Alarm;
use queue_rules::firing::Firing;
use slot_heaps::pending::PendingTimers;
use times::Time;

// Advances the alarm to t, and answers how many wake-ups there were. The timers of each are logged behind those of the one before.
pub(crate) fn serve<T: Time, A: Alarm<T>>(
    timers: &mut PendingTimers<'_, T>,
    alarm: &mut A,
    t: T,
    log: &mut [Firing<T>],
) -> u16
    requires { timers.old.count ≤ length log.old }
    ensures length { length timers.new.slots.now ≡ length timers.old.slots.now }
    ensures fewer { timers.new.count ≤ timers.old.count }
    ensures few_wakes { result + timers.new.count ≤ timers.old.count }
    ensures held { length (held_timers timers.new) + timers.old.count ≡ length (held_timers timers.old) + timers.new.count }
    ensures served { Ready T.Time.before timers.old.count (held_timers timers.old) (A.AlarmDevice.clock alarm.old) (A.AlarmDevice.due alarm.old) t → ServedAll T.Time.before t (held_timers timers.old) (held_timers timers.new) result log.old log.new (A.AlarmDevice.clock alarm.new) (A.AlarmDevice.due alarm.new) }
    ensures counted { Ready T.Time.before timers.old.count (held_timers timers.old) (A.AlarmDevice.clock alarm.old) (A.AlarmDevice.due alarm.old) t → CountedAll T.Time.before t (held_timers timers.old) (held_timers timers.new) }
{
    let pending = timers.count();
    let mut wakes = 0;
    while rings(alarm, t) {
        let left = timers.count();
        let Some((_, forcing)) = timers.first_by_hard() else {
            break;
        };
        let (_, unlogged) = log.split_at_mut(usize::from(pending - left));
        fire(timers, forcing.hard, forcing.number, unlogged);
        if timers.count() == left {
            break;
        }
        wakes += 1;
        aim(alarm, least(timers));
    }
    wakes
}
