// The calls of the queue. Each comes out as it is defined.
ghost use Rattle.std.specs.Prelude.{◌≡◌, ◌≤◌, [], length, drop, is_ok, IfOk, OnErr};
ghost use Rattle.alarms.specs.Meaning.{Clears};
ghost use Rattle.queue_rules.specs.Calls.{usable_of, arming, cancelling, advancing};
ghost use Rattle.timer_queue.specs.Doing.{state_with, written, unwritten, Done, Greedily, Leaves};
ghost use Rattle.queue_rules.specs.Events.{armed, cancelled, advanced, counts, Lived};
ghost use Rattle.timer_queue.specs.Queues.{queue_timers, Spared};
ghost use Rattle.queue_rules.specs.Timers.{timed};

use crate::advancing::serve;
use crate::aiming::aim;
use crate::queue::TimerQueue;
use alarms::Alarm;
use queue_rules::fault::QueueFault;
use queue_rules::firing::Firing;
use slot_heaps::pending::PendingTimers;
use slot_heaps::slots::{Slot, usable};
use slot_heaps::timer::Timer;
use times::Time;

impl<'a, T: Time> TimerQueue<'a, T> {
    // How many timers are pending.
    pub fn pending(&self) -> u16
        ensures value { result ≡ length (queue_timers self.now) }
        ensures small { result ≤ 4096 }
    {
        self.timers.count()
    }

    // How many timers can be pending.
    pub fn usable(&self) -> u16
        ensures { result ≡ length self.now.timers.slots.now }
    {
        self.timers.capacity()
    }

    // A queue over lent slots, with nothing pending.
    pub fn over(slots: &'a mut [Slot<T>]) -> TimerQueue<'a, T>
        ensures timers { queue_timers result ≡ [] }
        ensures usable { length result.timers.slots.now ≡ usable_of (length slots.old) }
        ensures spared { result.spare.now ≡ drop (length result.timers.slots.now) slots.old }
    {
        let count = usize::from(usable(slots.len()));
        let (slots, spare) = slots.split_at_mut(count);
        TimerQueue {
            timers: PendingTimers::over(slots),
            spare,
        }
    }

    // Nothing is pending, and the alarm is not due: a list of calls begins.
    pub fn start<A: Alarm<T>>(&mut self, alarm: &mut A)
        ensures timers { queue_timers self.new ≡ [] }
        ensures alarm { Clears A.AlarmDevice.clock A.AlarmDevice.due alarm.old alarm.new }
        ensures spared { Spared self.old self.new }
        ensures history { Lived T.Time.before (length self.old.timers.slots.now) (A.AlarmDevice.clock alarm.old) [] (state_with A.AlarmDevice.clock A.AlarmDevice.due self.new alarm.new) }
    {
        self.timers.clear();
        alarm.clear();
    }

    // Arms a timer.
    pub fn arm<A: Alarm<T>>(
        &mut self,
        alarm: &mut A,
        number: u32,
        soft: T,
        hard: T,
    ) -> Result<(), QueueFault>
        ensures done { Done T.Time.before A.AlarmDevice.clock A.AlarmDevice.due self.old self.new alarm.old alarm.new (λ s. arming T.Time.before s (timed number soft hard)) result [] (armed (is_ok result) (timed number soft hard)) }
        ensures refused { Leaves result self.old self.new (A.AlarmDevice.clock alarm.old) (A.AlarmDevice.clock alarm.new) (A.AlarmDevice.due alarm.old) (A.AlarmDevice.due alarm.new) }
        ensures spared { Spared self.old self.new }
    {
        let timer = Timer { number, soft, hard };
        self.check_arm(alarm, timer)?;
        self.timers.insert(timer);
        aim(alarm, self.least());
        Ok(())
    }

    // Cancels the pending timer of this number.
    pub fn cancel<A: Alarm<T>>(&mut self, alarm: &mut A, number: u32) -> Result<(), QueueFault>
        ensures done { Done T.Time.before A.AlarmDevice.clock A.AlarmDevice.due self.old self.new alarm.old alarm.new (λ s. cancelling T.Time.before s number) result [] (cancelled (is_ok result) number) }
        ensures refused { Leaves result self.old self.new (A.AlarmDevice.clock alarm.old) (A.AlarmDevice.clock alarm.new) (A.AlarmDevice.due alarm.old) (A.AlarmDevice.due alarm.new) }
        ensures spared { Spared self.old self.new }
    {
        let slot = self.check_cancel(alarm, number)?;
        self.timers.remove(slot);
        aim(alarm, self.least());
        Ok(())
    }

    // Advances the clock to t: while some pending hard time is before t, there is a wake-up at the least one. Answers the wake-ups and
    // the firings, which are logged from the start of the log.
    pub fn advance<A: Alarm<T>>(
        &mut self,
        alarm: &mut A,
        t: T,
        log: &mut [Firing<T>],
    ) -> Result<(u16, u16), QueueFault>
        ensures done { Done T.Time.before A.AlarmDevice.clock A.AlarmDevice.due self.old self.new alarm.old alarm.new (λ s. advancing T.Time.before s t (length log.old)) result (written result log.new) (advanced (is_ok result) t (counts result) (written result log.new)) }
        ensures greedy { Greedily T.Time.before (state_with A.AlarmDevice.clock A.AlarmDevice.due self.old alarm.old) t result (written result log.new) }
        ensures later { unwritten result log.new ≡ unwritten result log.old }
        ensures refused { Leaves result self.old self.new (A.AlarmDevice.clock alarm.old) (A.AlarmDevice.clock alarm.new) (A.AlarmDevice.due alarm.old) (A.AlarmDevice.due alarm.new) }
        ensures few { IfOk result (λ n. (n.0 ≤ length (queue_timers self.old)) × (n.1 ≤ length (queue_timers self.old)) × (length (queue_timers self.old) ≤ length log.old)) }
        ensures unlogged { OnErr result (log.new ≡ log.old) }
        ensures spared { Spared self.old self.new }
    {
        self.check_advance(alarm, t, log.len())?;
        let pending = self.pending();
        let wakes = serve(&mut self.timers, alarm, t, log);
        Ok((wakes, pending - self.pending()))
    }
}
