ghost use Rattle.std.specs.Prelude.{◌≡◌, ◌+◌, ◌≤◌, Some, None, MatchResult};
ghost use Rattle.runs.specs.Replies.{tally_of, nothing, counting, unanswered};

use super::{Counts, NextLine};
use crate::faults::RunFault;

// How many lines are counted at most.
const MOST_LINES: u32 = 1_000_000;

impl Counts {
    pub(crate) fn new() -> Counts
        ensures { tally_of result ≡ nothing }
    {
        Counts {
            lines: 0,
            wakes: 0,
            firings: 0,
        }
    }

    pub(crate) fn wakes(self) -> u32
        ensures { result ≡ self.wakes }
    {
        self.wakes
    }

    pub(crate) fn firings(self) -> u32
        ensures { result ≡ self.firings }
    {
        self.firings
    }

    // The number of the next line.
    pub(crate) fn next(self) -> u32
        ensures { result ≡ self.lines + 1 }
    {
        self.lines + 1
    }

    // The next line, or why it is not even counted.
    pub(crate) fn next_line(self, room: usize, pending: u16) -> Result<NextLine, RunFault>
        ensures { MatchResult result (λ next. (next.counts ≡ self) × (unanswered room pending (tally_of self) ≡ None)) (λ fault. unanswered room pending (tally_of self) ≡ Some fault) }
    {
        if room < 63 * usize::from(pending) + 23 {
            return Err(RunFault::ShortBuffer);
        }
        if self.lines >= MOST_LINES {
            return Err(RunFault::TooManyLines);
        }
        Ok(NextLine { counts: self })
    }
}

impl NextLine {
    pub(crate) fn number(self) -> u32
        ensures { result ≡ self.counts.lines + 1 }
    {
        self.counts.next()
    }

    // The counts once this line is counted, with its wake-ups and its firings.
    pub(crate) fn counted(self, served: (u16, u16)) -> Counts
        requires { (served.0 ≤ 4096) × (served.1 ≤ 4096) }
        ensures { tally_of result ≡ counting (tally_of self.counts) served.0 served.1 }
    {
        let (wakes, firings) = served;
        Counts {
            lines: self.counts.lines + 1,
            wakes: self.counts.wakes + u32::from(wakes),
            firings: self.counts.firings + u32::from(firings),
        }
    }
}
