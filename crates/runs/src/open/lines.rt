// A line to an open run.
ghost use Rattle.std.specs.Prelude.{◌≡◌, ◌≤◌, Bool, length, IfOk};
ghost use Rattle.timer_queue.specs.Doing.{state_with};
ghost use Rattle.timer_queue.specs.Queues.{Spared};
ghost use Rattle.timer_queue.specs.Queues.{queue_timers};
ghost use Rattle.runs.specs.Calling.{opened_with, line_effect, effect_left, line_events, CarriesOn, Untouched};
ghost use Rattle.runs.specs.Finishing.{told};
ghost use Rattle.runs.specs.Opened.{kind_of_time, open_line};
ghost use Rattle.runs.specs.Performing.{forget};
ghost use Rattle.runs.specs.Replies.{tally_of, RepliedBy};

use super::OpenRun;
use crate::faults::RunFault;
use crate::finishing::finish;
use crate::performing::{closes, perform};
use crate::replies::{Replied, ignore};
use alarms::{Alarm, AlarmDevice};
use queue_rules::firing::Firing;
use timer_queue::queue::TimerQueue;
use times::Plain;

impl<T: Plain> OpenRun<T> {
    // Does what a line asks for; answers the wake-ups and the firings.
    fn carry_out<A: Alarm<T>>(
        &mut self,
        queue: &mut TimerQueue<'_, T>,
        alarm: &mut A,
        line: &[u8],
        log: &mut [Firing<T>],
    ) -> Result<(u16, u16), RunFault>
        ensures told { told T.Plain.plain result log.new ≡ forget (line_effect (kind_of_time T.Plain) (length log.old) (opened_with A.AlarmDevice.clock A.AlarmDevice.due self.old.closing queue.old alarm.old) line.now) }
        ensures left { opened_with A.AlarmDevice.clock A.AlarmDevice.due self.new.closing queue.new alarm.new ≡ effect_left (line_effect (kind_of_time T.Plain) (length log.old) (opened_with A.AlarmDevice.clock A.AlarmDevice.due self.old.closing queue.old alarm.old) line.now) (opened_with A.AlarmDevice.clock A.AlarmDevice.due self.old.closing queue.old alarm.old) }
        ensures few { IfOk result (λ n. (n.0 ≤ length (queue_timers queue.old)) × (n.1 ≤ length (queue_timers queue.old)) × (n.1 ≤ length log.old)) }
        ensures refused { Untouched result queue.old queue.new (A.AlarmDevice.clock alarm.old) (A.AlarmDevice.clock alarm.new) (A.AlarmDevice.due alarm.old) (A.AlarmDevice.due alarm.new) log.old log.new }
        ensures spared { Spared queue.old queue.new }
    {
        let step = self.step(line, alarm.clock())?;
        let counts = perform(queue, alarm, step, log)?;
        self.closing = closes(step);
        Ok(counts)
    }

    // Answers a line in the buffer, which needs 23 bytes and 63 for each pending timer; the log takes the firings.
    pub fn line<A: Alarm<T>>(
        &mut self,
        queue: &mut TimerQueue<'_, T>,
        alarm: &mut A,
        line: &[u8],
        log: &mut [Firing<T>],
        buffer: &mut [u8],
    ) -> Replied
        ensures reply { RepliedBy (open_line (kind_of_time T.Plain) (length buffer.old) (length log.old) (tally_of self.old.counts) (opened_with A.AlarmDevice.clock A.AlarmDevice.due self.old.closing queue.old alarm.old) line.now) (tally_of self.new.counts) (opened_with A.AlarmDevice.clock A.AlarmDevice.due self.new.closing queue.new alarm.new) buffer.old buffer.new result }
        ensures history { CarriesOn (kind_of_time T.Plain) (state_with A.AlarmDevice.clock A.AlarmDevice.due queue.old alarm.old) (line_events (kind_of_time T.Plain) (length buffer.old) (length log.old) (tally_of self.old.counts) (opened_with A.AlarmDevice.clock A.AlarmDevice.due self.old.closing queue.old alarm.old) line.now) (state_with A.AlarmDevice.clock A.AlarmDevice.due queue.new alarm.new) }
        ensures within { result.written ≤ length buffer.old }
        ensures refused { Untouched result.answer queue.old queue.new (A.AlarmDevice.clock alarm.old) (A.AlarmDevice.clock alarm.new) (A.AlarmDevice.due alarm.old) (A.AlarmDevice.due alarm.new) log.old log.new }
        ensures spared { Spared queue.old queue.new }
    {
        let next = match self.counts.next_line(buffer.len(), queue.pending()) {
            Ok(next) => next,
            Err(fault) => return ignore(self.counts, fault),
        };
        let outcome = self.carry_out(queue, alarm, line, log);
        let (counts, replied) = finish(next, outcome, log, buffer);
        self.counts = counts;
        replied
    }
}
