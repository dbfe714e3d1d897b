// The frames of a report, each a line of hexadecimal that ends in a line feed.
ghost use Rattle.std.specs.Prelude.{◌≡◌, ◌+◌, ◌*◌, ◌≤◌, map, length};

use crate::counts::Counts;
use crate::faults::RunFault;
use frames::write::write_frame;
use queue_rules::firing::Firing;
use times::Plain;

// A lent buffer, and the place behind the lines that stand in it. `request_words` has a sheet like it: the methods of each need a type of its
// own crate.
#[derive(Drop)]
pub(crate) struct Report<'a> {
    pub(crate) buffer: &'a mut [u8],
    pub(crate) at: usize,
    ghost within: { at ≤ length buffer.now },
}

impl Report<'_> {
    ghost use Rattle.runs.specs.Frames.{text, frame_payload, firing_frame};
    ghost use Rattle.runs.specs.Report.{report_line, outcome_payload, totals_payload};
    ghost use Rattle.runs.specs.Reports.{room, Extends};

    // Adds the frame of a payload.
    fn add(&mut self, payload: &[u8])
        requires { 2 * length payload.now + 3 ≤ room self.old }
        ensures { Extends (report_line payload.now) self.old self.new }
    {
        let end = self.at + 2 * payload.len() + 2;
        // Not refused: there is room.
        let _ = write_frame(payload, &mut self.buffer[self.at..]);
        self.buffer[end] = 10;
        self.at = end + 1;
    }

    // Adds the answer of a line: its number, the refusal or 0, the wake-ups and the firings.
    pub(crate) fn add_answer(&mut self, line: u32, outcome: Result<(u16, u16), RunFault>)
        requires { 23 ≤ room self.old }
        ensures { Extends (report_line (outcome_payload line outcome)) self.old self.new }
    {
        let (refusal, wakes, firings) = match outcome {
            Ok((wakes, firings)) => (0, wakes, firings),
            Err(fault) => (fault.number(), 0, 0),
        };
        let [l0, l1, l2, l3] = line.to_be_bytes();
        let [w0, w1] = wakes.to_be_bytes();
        let [f0, f1] = firings.to_be_bytes();
        self.add(&[0x90, l0, l1, l2, l3, refusal, w0, w1, f0, f1]);
    }

    // Adds a firing: the timer's number, the mark, and the plain forms of its wake, soft and hard time.
    pub(crate) fn add_firing<T: Plain>(&mut self, entry: &Firing<T>)
        requires { 63 ≤ room self.old }
        ensures { Extends (report_line (frame_payload (firing_frame T.Plain.plain entry.now))) self.old self.new }
    {
        let mark = u8::from(entry.mark);
        let [n0, n1, n2, n3] = entry.number.to_be_bytes();
        let [w0, w1, w2, w3, w4, w5, w6, w7] = entry.wake.to_plain().to_be_bytes();
        let [s0, s1, s2, s3, s4, s5, s6, s7] = entry.soft.to_plain().to_be_bytes();
        let [h0, h1, h2, h3, h4, h5, h6, h7] = entry.hard.to_plain().to_be_bytes();
        let payload = [
            0x91, n0, n1, n2, n3, mark, w0, w1, w2, w3, w4, w5, w6, w7, s0, s1, s2, s3, s4, s5, s6,
            s7, h0, h1, h2, h3, h4, h5, h6, h7,
        ];
        self.add(&payload);
    }

    // Adds log entries, one after the other.
    pub(crate) fn add_firings<T: Plain>(&mut self, log: &[Firing<T>])
        requires { 63 * length log.now ≤ room self.old }
        ensures added { Extends (text (map (firing_frame T.Plain.plain) log.now)) self.old self.new }
        ensures end { self.new.at ≡ self.old.at + 63 * length log.now }
    {
        for entry in log {
            self.add_firing(entry);
        }
    }

    // Adds the totals of a run.
    pub(crate) fn add_totals(&mut self, counts: Counts, pending: u16)
        requires { 25 ≤ room self.old }
        ensures { Extends (report_line (totals_payload counts.wakes counts.firings pending)) self.old self.new }
    {
        let [w0, w1, w2, w3] = counts.wakes().to_be_bytes();
        let [f0, f1, f2, f3] = counts.firings().to_be_bytes();
        let [p0, p1] = pending.to_be_bytes();
        self.add(&[0x95, w0, w1, w2, w3, f0, f1, f2, f3, p0, p1]);
    }
}
