// Opening a run at the start that was accepted.
ghost use Rattle.std.specs.Prelude.{◌≡◌, MatchResult};
ghost use Rattle.timer_queue.specs.Queues.{Spared};
ghost use Rattle.runs.specs.Calling.{Started};
ghost use Rattle.runs.specs.Moves.{Opens};
ghost use Rattle.runs.specs.Opening.{startable};

use super::WaitingRun;
use crate::faults::RunFault;
use crate::kinds::NamedTime;
use crate::open::OpenRun;
use crate::opening::{Opening, TimeKind};
use alarms::{Alarm, AlarmDevice};
use timer_queue::queue::TimerQueue;

// Whether an accepted open frame asked for this kind of time, and for a start at this clock.
fn starts_at(accepted: Option<Opening>, kind: TimeKind, clock: u64) -> bool
    ensures { result ≡ startable accepted kind clock }
{
    accepted.is_some_and(|opening| opening.kind == kind && opening.start == clock)
}

impl WaitingRun {
    // The open run, or this one back, as it was, with the refusal.
    pub(crate) fn open_at<T: NamedTime>(
        self,
        clock: T,
    ) -> Result<OpenRun<T>, (WaitingRun, RunFault)>
        ensures { Opens (startable self.accepted T.NamedTime.kind (T.Plain.plain clock)) self result }
    {
        if starts_at(self.accepted, T::kind(), clock.to_plain()) {
            Ok(OpenRun::new(self.counts))
        } else {
            Err((self, RunFault::NotAccepted))
        }
    }

    // Starts the queue and opens the run, if the alarm's clock is the start time that was accepted; or this run back, as it was.
    pub fn open<T: NamedTime, A: Alarm<T>>(
        self,
        queue: &mut TimerQueue<'_, T>,
        alarm: &mut A,
    ) -> Result<OpenRun<T>, (WaitingRun, RunFault)>
        ensures opens { Opens (startable self.accepted T.NamedTime.kind (T.Plain.plain (A.AlarmDevice.clock alarm.old))) self result }
        ensures started { MatchResult result (λ _. Started T.Time.before A.AlarmDevice.clock A.AlarmDevice.due queue.old queue.new alarm.old alarm.new) (λ _. (queue.new ≡ queue.old) × (A.AlarmDevice.clock alarm.new ≡ A.AlarmDevice.clock alarm.old) × (A.AlarmDevice.due alarm.new ≡ A.AlarmDevice.due alarm.old)) }
        ensures spared { Spared queue.old queue.new }
    {
        let run = self.open_at(alarm.clock())?;
        queue.start(alarm);
        Ok(run)
    }
}
