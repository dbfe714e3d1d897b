// What each call tests before it does anything, in the order of the refusals. Each hands on that the due time is not past: the alarm's
// answer promises it, and no type of ours holds the caller's alarm.
ghost use Rattle.std.specs.Prelude.{◌≡◌, ◌<◌, ◌≤◌, length, IfOk, Some, None, OnOk};
ghost use Rattle.alarms.specs.Meaning.{NotPast};
ghost use Rattle.slot_heaps.specs.Firsts.{Found};
ghost use Rattle.timer_queue.specs.Queues.{queue_timers};
ghost use Rattle.timer_queue.specs.Views.{refusal_of, moved, arm_refusal, cancel_refusal, advance_refusal};

use crate::aiming::is_due;
use crate::queue::TimerQueue;
use alarms::{Alarm, AlarmDevice};
use queue_rules::fault::QueueFault;
use slot_heaps::timer::Timer;
use times::Time;

impl<'a, T: Time> TimerQueue<'a, T> {
    // Whether the alarm is due at the least pending hard time, or not due where nothing is pending.
    fn check_alarm<A: Alarm<T>>(&self, alarm: &A) -> Result<(), QueueFault>
        ensures answer { refusal_of result ≡ moved T.Time.before (queue_timers self.now) (A.AlarmDevice.due alarm.now) None }
        ensures ahead { NotPast T.Time.before (A.AlarmDevice.clock alarm.now) (A.AlarmDevice.due alarm.now) }
    {
        if is_due(alarm, self.least()) {
            Ok(())
        } else {
            Err(QueueFault::AlarmMoved)
        }
    }

    // Whether a timer may be armed.
    pub(crate) fn check_arm<A: Alarm<T>>(
        &self,
        alarm: &A,
        timer: Timer<T>,
    ) -> Result<(), QueueFault>
        ensures answer { refusal_of result ≡ arm_refusal T.Time.before (length self.now.timers.slots.now) (queue_timers self.now) (A.AlarmDevice.clock alarm.now) (A.AlarmDevice.due alarm.now) timer }
        ensures ahead { NotPast T.Time.before (A.AlarmDevice.clock alarm.now) (A.AlarmDevice.due alarm.now) }
        ensures room { OnOk result (self.now.timers.count < length self.now.timers.slots.now) }
    {
        self.check_alarm(alarm)?;
        if timer.hard.before(timer.soft) {
            return Err(QueueFault::HardBeforeSoft);
        }
        if timer.soft.before(alarm.clock()) {
            return Err(QueueFault::SoftPassed);
        }
        if self.find(timer.number).is_some() {
            return Err(QueueFault::NumberPending);
        }
        if self.usable() <= self.pending() {
            return Err(QueueFault::QueueFull);
        }
        Ok(())
    }

    // The slot of the timer that a cancel takes out.
    pub(crate) fn check_cancel<A: Alarm<T>>(
        &self,
        alarm: &A,
        number: u32,
    ) -> Result<u16, QueueFault>
        ensures answer { refusal_of result ≡ cancel_refusal T.Time.before (length self.now.timers.slots.now) (queue_timers self.now) (A.AlarmDevice.clock alarm.now) (A.AlarmDevice.due alarm.now) number }
        ensures ahead { NotPast T.Time.before (A.AlarmDevice.clock alarm.now) (A.AlarmDevice.due alarm.now) }
        ensures slot { IfOk result (λ i. Found number self.now.timers.count self.now.timers.slots.now (Some i)) }
    {
        self.check_alarm(alarm)?;
        self.find(number).ok_or(QueueFault::NotPending)
    }

    // Whether the clock may be advanced to t, with a log of so many entries.
    pub(crate) fn check_advance<A: Alarm<T>>(
        &self,
        alarm: &A,
        t: T,
        room: usize,
    ) -> Result<(), QueueFault>
        ensures answer { refusal_of result ≡ advance_refusal T.Time.before (length self.now.timers.slots.now) (queue_timers self.now) (A.AlarmDevice.clock alarm.now) (A.AlarmDevice.due alarm.now) t room }
        ensures ahead { NotPast T.Time.before (A.AlarmDevice.clock alarm.now) (A.AlarmDevice.due alarm.now) }
        ensures room { OnOk result (self.now.timers.count ≤ room) }
    {
        self.check_alarm(alarm)?;
        if t.before(alarm.clock()) {
            return Err(QueueFault::AdvancePassed);
        }
        if room < usize::from(self.pending()) {
            return Err(QueueFault::LogShort);
        }
        Ok(())
    }
}
