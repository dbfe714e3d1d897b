// A run that waits for an open frame.
ghost use Rattle.std.specs.Prelude.{◌≡◌, None};
ghost use Rattle.runs.specs.Replies.{tally_of, nothing};

use crate::counts::Counts;
use crate::opening::Opening;

mod lines;
mod start;

// `accepted` is what an accepted open frame asked for; until the run is opened, every line is refused.
#[derive(Drop)]
pub struct WaitingRun {
    counts: Counts,
    accepted: Option<Opening>,
}

impl WaitingRun {
    // No line is counted and nothing accepted.
    pub fn new() -> WaitingRun
        ensures counts { tally_of result.counts ≡ nothing }
        ensures accepted { result.accepted ≡ None }
    {
        WaitingRun {
            counts: Counts::new(),
            accepted: None,
        }
    }

    // What an accepted open frame asked for: the caller makes the alarm of it.
    pub fn accepted(&self) -> Option<Opening>
        ensures { result ≡ self.now.accepted }
    {
        self.accepted
    }
}
