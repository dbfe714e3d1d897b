// The call of the queue that a step asks for.
ghost use Rattle.std.specs.Prelude.{◌≡◌, ◌≤◌, Bool, true, false, length, IfOk, OnOk};
ghost use Rattle.queue_rules.specs.declared.firing.Firing.{Firing};
ghost use Rattle.timer_queue.specs.Doing.{state_with};
ghost use Rattle.timer_queue.specs.Queues.{Spared};
ghost use Rattle.timer_queue.specs.Queues.{queue_timers};
ghost use Rattle.runs.specs.Calling.{opened_with, effect_left, Untouched};
ghost use Rattle.runs.specs.Finishing.{told};
ghost use Rattle.runs.specs.Opened.{kind_of_time, carried_out};
ghost use Rattle.runs.specs.Performing.{closing_step, forget};

use crate::faults::RunFault;
use crate::steps::Step;
use alarms::{Alarm, AlarmDevice};
use queue_rules::firing::Firing;
use timer_queue::queue::TimerQueue;
use times::Plain;

// Whether a step asks for the run to be closed.
pub(crate) fn closes<T: Plain>(step: Step<T>) -> bool
    ensures { result ≡ closing_step step }
{
    matches!(step, Step::Close)
}

// Queue, alarm and log come one by one, as the caller lends them with each line. Answers the wake-ups and the firings of the call; the firings are logged from the start of the log.
pub(crate) fn perform<T: Plain, A: Alarm<T>>(
    queue: &mut TimerQueue<'_, T>,
    alarm: &mut A,
    step: Step<T>,
    log: &mut [Firing<T>],
) -> Result<(u16, u16), RunFault>
    ensures told { told T.Plain.plain result log.new ≡ forget (carried_out (kind_of_time T.Plain) (length log.old) (state_with A.AlarmDevice.clock A.AlarmDevice.due queue.old alarm.old) step) }
    ensures left { OnOk result (opened_with A.AlarmDevice.clock A.AlarmDevice.due (closing_step step) queue.new alarm.new ≡ effect_left (carried_out (kind_of_time T.Plain) (length log.old) (state_with A.AlarmDevice.clock A.AlarmDevice.due queue.old alarm.old) step) (opened_with A.AlarmDevice.clock A.AlarmDevice.due false queue.old alarm.old)) }
    ensures few { IfOk result (λ n. (n.0 ≤ length (queue_timers queue.old)) × (n.1 ≤ length (queue_timers queue.old)) × (n.1 ≤ length log.old)) }
    ensures refused { Untouched result queue.old queue.new (A.AlarmDevice.clock alarm.old) (A.AlarmDevice.clock alarm.new) (A.AlarmDevice.due alarm.old) (A.AlarmDevice.due alarm.new) log.old log.new }
    ensures spared { Spared queue.old queue.new }
{
    match step {
        Step::Arm(timer) => queue.arm(alarm, timer.number, timer.soft, timer.hard)?,
        Step::Cancel(number) => queue.cancel(alarm, number)?,
        Step::Advance(t) => return Ok(queue.advance(alarm, t, log)?),
        Step::Close => {}
    }
    Ok((0, 0))
}
