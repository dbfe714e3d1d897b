// A line to a waiting run.
ghost use Rattle.std.specs.Prelude.{◌≡◌, ◌≤◌, length};
ghost use Rattle.runs.specs.Replies.{tally_of, RepliedBy};
ghost use Rattle.runs.specs.Waiting.{opening_in, waiting_line};

use super::WaitingRun;
use crate::faults::RunFault;
use crate::opening::{Opening, opening_of};
use crate::reading::read_request;
use crate::replies::{Replied, answer, ignore};
use crate::report::Report;

impl WaitingRun {
    // What a line opens the run with, or why it opens nothing.
    fn hear(&self, line: &[u8]) -> Result<Opening, RunFault>
        ensures { result ≡ opening_in self.now.accepted line.now }
    {
        if self.accepted.is_some() {
            return Err(RunFault::NotNow);
        }
        let request = read_request(line)?;
        opening_of(request)
    }

    // Answers a line in the buffer, which needs 23 bytes.
    pub fn line(&mut self, line: &[u8], buffer: &mut [u8]) -> Replied
        ensures reply { RepliedBy (waiting_line (length buffer.old) (tally_of self.old.counts) self.old.accepted line.now) (tally_of self.new.counts) self.new.accepted buffer.old buffer.new result }
        ensures within { result.written ≤ length buffer.old }
    {
        let next = match self.counts.next_line(buffer.len(), 0) {
            Ok(next) => next,
            Err(fault) => return ignore(self.counts, fault),
        };
        let mut report = Report { buffer, at: 0 };
        let heard = self.hear(line);
        if let Ok(opening) = heard {
            self.accepted = Some(opening);
        }
        let (counts, replied) = answer(next, &mut report, heard.map(|_| (0, 0)));
        self.counts = counts;
        replied
    }
}
