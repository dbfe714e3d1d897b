// A run that was closed: every line comes too late, and the totals can be had.
ghost use Rattle.std.specs.Prelude.{◌≡◌, [], ◌∷◌, length};
ghost use Rattle.runs.specs.Replies.{tally_of, RepliedBy};
ghost use Rattle.runs.specs.Waiting.{closed_line, TotalsBy};

use crate::counts::Counts;
use crate::faults::RunFault;
use crate::replies::{Replied, answer, ignore};
use crate::report::Report;

#[derive(Drop)]
pub struct ClosedRun {
    counts: Counts,
    pending: u16,
}

impl ClosedRun {
    pub(crate) fn new(counts: Counts, pending: u16) -> ClosedRun
        ensures { (result.counts ≡ counts) × (result.pending ≡ pending) }
    {
        ClosedRun { counts, pending }
    }

    // Answers a line that comes too late; it needs as much room as one to the open run.
    pub fn late_line(&mut self, buffer: &mut [u8]) -> Replied
        ensures reply { RepliedBy (closed_line (length buffer.old) (tally_of self.old.counts) self.old.pending) (tally_of self.new.counts) self.new.pending buffer.old buffer.new result }
    {
        let next = match self.counts.next_line(buffer.len(), self.pending) {
            Ok(next) => next,
            Err(fault) => return ignore(self.counts, fault),
        };
        let mut report = Report { buffer, at: 0 };
        let (counts, replied) = answer(next, &mut report, Err(RunFault::NotNow));
        self.counts = counts;
        replied
    }

    // Writes the totals frame, and answers its length; it needs 25 bytes.
    pub fn totals(&self, buffer: &mut [u8]) -> Result<usize, RunFault>
        ensures { TotalsBy (tally_of self.now.counts) self.now.pending buffer.old buffer.new result }
    {
        if buffer.len() < 25 {
            return Err(RunFault::ShortBuffer);
        }
        let mut report = Report { buffer, at: 0 };
        report.add_totals(self.counts, self.pending);
        Ok(report.at)
    }
}
