// A run that is open.
ghost use Rattle.std.specs.Prelude.{◌≡◌, false, length};
ghost use Rattle.timer_queue.specs.Queues.{queue_timers};
ghost use Rattle.runs.specs.Moves.{Closes};
ghost use Rattle.runs.specs.Opened.{kind_of_time, step_in};

use crate::closed::ClosedRun;
use crate::counts::Counts;
use crate::faults::RunFault;
use crate::reading::read_request;
use crate::steps::{Step, read_step};
use std::marker::PhantomData;
use timer_queue::queue::TimerQueue;
use times::Plain;

mod lines;

// `closing` says that a close frame was accepted. It is no type of its own: a line to a closing run is answered by the same call.
#[derive(Drop)]
pub struct OpenRun<T> {
    counts: Counts,
    closing: bool,
    kind: PhantomData<T>,
}

impl<T: Plain> OpenRun<T> {
    pub(crate) fn new(counts: Counts) -> OpenRun<T>
        ensures { (result.counts ≡ counts) × (result.closing ≡ false) }
    {
        OpenRun {
            counts,
            closing: false,
            kind: PhantomData,
        }
    }

    // Whether a close frame was accepted, so that the run can be closed.
    pub fn is_closing(&self) -> bool
        ensures { result ≡ self.now.closing }
    {
        self.closing
    }

    // What a line asks for at this clock, or why it asks for nothing.
    pub(crate) fn step(&self, line: &[u8], clock: T) -> Result<Step<T>, RunFault>
        ensures { result ≡ step_in (kind_of_time T.Plain) self.now.closing clock line.now }
    {
        if self.closing {
            return Err(RunFault::NotNow);
        }
        let request = read_request(line)?;
        read_step(request, clock)
    }

    // The closed run, or this one back, as it was, with the refusal; `pending` timers are left.
    pub(crate) fn close_with(self, pending: u16) -> Result<ClosedRun, (OpenRun<T>, RunFault)>
        ensures { Closes self pending result }
    {
        if self.closing {
            Ok(ClosedRun::new(self.counts, pending))
        } else {
            Err((self, RunFault::NotAccepted))
        }
    }

    // The closed run, if a close frame was accepted, or this one back, as it was, with the refusal. It keeps how many timers are pending.
    pub fn close(self, queue: &TimerQueue<'_, T>) -> Result<ClosedRun, (OpenRun<T>, RunFault)>
        ensures { Closes self (length (queue_timers queue.now)) result }
    {
        self.close_with(queue.pending())
    }
}
