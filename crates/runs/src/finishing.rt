// The answer to a line that was heard, once the queue has done what it asked for.
ghost use Rattle.std.specs.Prelude.{length};
ghost use Rattle.runs.specs.Finishing.{FitsIn, told};
ghost use Rattle.runs.specs.Replies.{tally_of, heard, RepliedBy};

use crate::counts::{Counts, NextLine};
use crate::faults::RunFault;
use crate::replies::{Replied, answer};
use crate::report::Report;
use queue_rules::firing::Firing;
use times::Plain;

// Writes the firings from the start of the log and then the answer, or the refusal; `outcome` has the wake-ups and the firings.
pub(crate) fn finish<T: Plain>(
    next: NextLine,
    outcome: Result<(u16, u16), RunFault>,
    log: &[Firing<T>],
    buffer: &mut [u8],
) -> (Counts, Replied)
    requires { FitsIn outcome (length log.now) (length buffer.old) }
    ensures { RepliedBy (heard (tally_of next.counts) tt (told T.Plain.plain outcome log.now)) (tally_of result.0) tt buffer.old buffer.new result.1 }
{
    let mut report = Report { buffer, at: 0 };
    if let Ok((_, firings)) = outcome {
        report.add_firings(&log[0..usize::from(firings)]);
    }
    answer(next, &mut report, outcome)
}
