// What the tests of the calls look up.
ghost use Rattle.std.specs.Prelude.{◌≡◌, is_some};
ghost use Rattle.slot_heaps.specs.Firsts.{Found};
ghost use Rattle.queue_rules.specs.Lists.{passes};
ghost use Rattle.queue_rules.specs.Timers.{least_hard, numbered};
ghost use Rattle.timer_queue.specs.Queues.{queue_timers};

use crate::queue::TimerQueue;
use crate::serving::least;
use times::Time;

impl<'a, T: Time> TimerQueue<'a, T> {
    // The least pending hard time.
    pub(crate) fn least(&self) -> Option<T>
        ensures { result ≡ least_hard T.Time.before (queue_timers self.now) }
    {
        least(&self.timers)
    }

    // The slot in which a number is pending.
    pub(crate) fn find(&self, number: u32) -> Option<u16>
        ensures found { Found number self.now.timers.count self.now.timers.slots.now result }
        ensures pending { is_some result ≡ passes (numbered number) (queue_timers self.now) }
    {
        self.timers.find(number)
    }
}
