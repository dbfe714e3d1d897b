// A wake-up: the ripe timers leave the heaps in the order of the log.
ghost use Rattle.std.specs.Prelude.{◌≡◌, ◌+◌, ◌≤◌, length, Some};
ghost use Rattle.timer_queue.specs.Firings.{Fired};
ghost use Rattle.timer_queue.specs.Held.{held_timers};
ghost use Rattle.queue_rules.specs.Timers.{Distinct, least_hard};
ghost use Rattle.queue_rules.specs.WakeUps.{entry};

use queue_rules::firing::Firing;
use slot_heaps::pending::PendingTimers;
use slot_heaps::timer::Timer;
use times::Time;

// The entry of a timer, which carries the mark if it forced the wake-up.
fn entry_of<T: Time>(timer: Timer<T>, wake: T, forcing: u32) -> Firing<T>
    ensures { result ≡ entry wake (Some forcing) timer }
{
    let mark = forcing == timer.number;
    Firing {
        number: timer.number,
        mark,
        wake,
        soft: timer.soft,
        hard: timer.hard,
    }
}

// Fires every timer whose soft time is not after the wake time, and logs them from the start of the log.
pub(crate) fn fire<T: Time>(
    timers: &mut PendingTimers<'_, T>,
    wake: T,
    forcing: u32,
    log: &mut [Firing<T>],
)
    requires { timers.old.count ≤ length log.old }
    ensures length { length timers.new.slots.now ≡ length timers.old.slots.now }
    ensures fewer { timers.new.count ≤ timers.old.count }
    ensures held { length (held_timers timers.new) + timers.old.count ≡ length (held_timers timers.old) + timers.new.count }
    ensures fired { Distinct (held_timers timers.old) → Fired T.Time.before wake forcing (held_timers timers.old) (held_timers timers.new) 0 log.old log.new }
{
    for entry in log {
        let Some((slot, first)) = timers.first_by_soft() else {
            break;
        };
        if wake.before(first.soft) {
            break;
        }
        *entry = entry_of(timers.remove(slot), wake, forcing);
    }
}

// The least pending hard time.
pub(crate) fn least<T: Time>(timers: &PendingTimers<'_, T>) -> Option<T>
    ensures { result ≡ least_hard T.Time.before (held_timers timers.now) }
{
    timers.first_by_hard().map(|(_, first)| first.hard)
}
