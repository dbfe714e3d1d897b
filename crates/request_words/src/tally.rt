// How many lines, frames and refusals there were, and the summary that says so.
ghost use Rattle.std.specs.Prelude.{◌≡◌, ◌≤◌, Some};
ghost use Rattle.request_words.specs.Placing.{PlacedIn};
ghost use Rattle.request_words.specs.Tallies.{counted, summary, tally_words};

use crate::place::{Sheet, has_room};
use frames::faults::ReadFault;
use frames::request::Request;
use std::fmt;

// Counts stop at the largest number, which no file reaches.
#[derive(Clone, Copy, Default, PartialEq, Eq, Debug)]
pub struct Tally {
    pub lines: u64,
    pub frames: u64,
    pub refused: u64,
}

impl Sheet<'_> {
    ghost use Rattle.request_words.specs.Sheets.{room, Puts};

    fn put_tally(&mut self, tally: &Tally)
        requires { 88 ≤ room self.old }
        ensures { Puts (summary tally.now) self.old self.new }
    {
        self.put_number(tally.lines);
        self.put(b" lines, ");
        self.put_number(tally.frames);
        self.put(b" frames, ");
        self.put_number(tally.refused);
        self.put(b" refused\n");
    }
}

impl Tally {
    pub fn new() -> Tally
        ensures { result ≡ record { lines = 0; frames = 0; refused = 0 } }
    {
        Tally::default()
    }

    // One line more.
    pub fn count(&mut self, answer: &Result<Request, ReadFault>)
        ensures { self.new ≡ counted self.old answer.now }
    {
        self.lines = self.lines.saturating_add(1);
        match answer {
            Ok(_) => self.frames = self.frames.saturating_add(1),
            Err(_) => self.refused = self.refused.saturating_add(1),
        }
    }

    // Puts the summary and a line feed at a place of a buffer, and answers the place behind them; or
    // none, where there is no room for the longest line.
    pub fn put_summary(&self, out: &mut [u8], at: usize) -> Option<usize>
        ensures { PlacedIn 88 (summary self.now) out.old at out.new result }
    {
        if !has_room(out, at) {
            return None;
        }
        let mut sheet = Sheet { out, at };
        sheet.put_tally(self);
        Some(sheet.at)
    }
}

impl fmt::Display for Tally {
    ghost output = { λ t. Some (tally_words t) };

    fn fmt<W: fmt::Write>(&self, f: &mut fmt::Formatter<W>) -> fmt::Result {
        write!(
            f,
            "{} lines, {} frames, {} refused",
            self.lines, self.frames, self.refused
        )
    }
}
