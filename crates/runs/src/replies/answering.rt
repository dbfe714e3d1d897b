ghost use Rattle.std.specs.Prelude.{◌≡◌, ◌+◌, ◌≤◌, Ok, IfOk, MatchResult};
ghost use Rattle.runs.specs.Replies.{tally_of, counting, refusing};
ghost use Rattle.runs.specs.Report.{report_line, outcome_payload};
ghost use Rattle.runs.specs.Reports.{room, Extends};

use super::{Refusal, Replied};
use crate::counts::{Counts, NextLine};
use crate::faults::RunFault;
use crate::report::Report;

// The three states call `ignore` and `answer` alike, each by itself: of what a closure changes of the queue, the alarm and the log that it
// captures, a contract could say nothing.

// Neither counts a line nor answers it in the buffer.
pub(crate) fn ignore(counts: Counts, fault: RunFault) -> Replied
    ensures written { result.written ≡ 0 }
    ensures answer { result.answer ≡ refusing (tally_of counts) fault }
{
    Replied {
        written: 0,
        answer: Err(Refusal {
            line: counts.next(),
            fault,
        }),
    }
}

// Counts a line, and adds its answer to the report; `outcome` has its wake-ups and its firings, or why it is refused.
pub(crate) fn answer(
    next: NextLine,
    report: &mut Report<'_>,
    outcome: Result<(u16, u16), RunFault>,
) -> (Counts, Replied)
    requires small { IfOk outcome (λ n. (n.0 ≤ 4096) × (n.1 ≤ 4096)) }
    requires room { 23 ≤ room report.old }
    ensures answer { MatchResult outcome (λ _. result.1.answer ≡ Ok tt) (λ fault. result.1.answer ≡ refusing (tally_of next.counts) fault) }
    ensures counted { MatchResult outcome (λ n. tally_of result.0 ≡ counting (tally_of next.counts) n.0 n.1) (λ _. tally_of result.0 ≡ counting (tally_of next.counts) 0 0) }
    ensures added { Extends (report_line (outcome_payload (next.counts.lines + 1) outcome)) report.old report.new }
    ensures written { result.1.written ≡ report.new.at }
{
    let line = next.number();
    report.add_answer(line, outcome);
    let replied = Replied {
        written: report.at,
        answer: outcome.map(|_| ()).map_err(|fault| Refusal { line, fault }),
    };
    (next.counted(outcome.unwrap_or((0, 0))), replied)
}
