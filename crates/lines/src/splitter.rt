// The lines of an input that comes in pieces of any size.

ghost use Rattle.std.specs.Prelude.{◌≡◌, ℕ, ◌<◌, ◌≤◌, List, [], ◌∷◌, ◌++◌, length, take};
ghost use Rattle.lines.specs.Lines.{kept, keeping, cut_lines, Took, handed, ended, Split, BeginsAndEnds, Passed, Within};

use crate::line::{KEPT, Line};
use crate::whole::{Whole, first_feed};
use std::mem;

// What has come of a line that has not ended yet.
#[derive(Clone, Copy)]
pub struct LineSplitter {
    line: Line,
}

// How much of a piece was taken, and the line that ended there, if one did.
#[derive(Clone, Copy)]
pub struct Taken {
    pub used: usize,
    pub line: Option<Line>,
}

impl LineSplitter {
    // Nothing has come yet.
    pub fn new() -> LineSplitter
        ensures { Split [] [] (kept result.line) }
    {
        LineSplitter { line: Line::new() }
    }

    // Takes bytes of a piece up to its first line feed, or all of them.
    pub fn feed(&mut self, piece: &[u8]) -> Taken
        ensures took { Took (kept self.old.line) piece.now result.used result.line (kept self.new.line) }
        ensures within { result.used ≤ length piece.now }
        ensures onward { 0 < length piece.now → 0 < result.used }
        ensures splits { (past : List ℕ) (done : List (List ℕ)) → Split past done (kept self.old.line) → Split (past ++ take result.used piece.now) (done ++ handed result.line) (kept self.new.line) }
    {
        match first_feed(piece) {
            Some(at) => {
                self.line.keep(&piece[..at]);
                let line = mem::replace(&mut self.line, Line::new());
                Taken {
                    used: at + 1,
                    line: Some(line),
                }
            }
            None => {
                self.line.keep(piece);
                Taken {
                    used: piece.len(),
                    line: None,
                }
            }
        }
    }

    // The first line of a piece, if nothing is kept of an earlier one and it ends there: nothing has
    // to be copied for it. Otherwise the piece is to be fed.
    pub fn whole_line(&self, piece: &[u8]) -> Option<Whole>
        ensures found { BeginsAndEnds (kept self.now.line) piece.now result }
        ensures within { Within piece.now result }
        ensures splits { (past : List ℕ) (done : List (List ℕ)) → Split past done (kept self.now.line) → Passed past done (kept self.now.line) piece.now result }
    {
        if !self.line.as_slice().is_empty() {
            return None;
        }
        let feed = first_feed(piece)?;
        Some(Whole {
            len: feed.min(KEPT),
            used: feed + 1,
        })
    }

    // The rest at the end of the input, if it is not empty.
    pub fn finish(self) -> Option<Line>
        ensures rest { handed result ≡ ended (kept self.line) }
        ensures lines { (past : List ℕ) (done : List (List ℕ)) → Split past done (kept self.line) → cut_lines past ≡ done ++ handed result }
    {
        (!self.line.as_slice().is_empty()).then_some(self.line)
    }
}
