// Where lines come from and frames of the report go to.
ghost use Rattle.std.specs.Prelude.{◌≤◌, length};

use lines::line::Line;
use lines::splitter::LineSplitter;
use runs::closed::ClosedRun;
use runs::replies::Replied;
use std::io;
use std::io::{BufWriter, Read, Stdin, Stdout, Write};

// The part of the input that was read last, and how much of it was taken. With the library's `BufReader` a heap would have to have room for it
// before the first line is answered.
#[derive(Drop)]
struct Piece {
    bytes: [u8; 65536],
    at: usize,
    end: usize,
    ghost within: { (at ≤ end) × (end ≤ 65536) },
}

impl Piece {
    // The next line that ends in the piece; what is left of it belongs to a line that goes on.
    fn next_line(&mut self, splitter: &mut LineSplitter) -> Option<Line> {
        let taken = splitter.feed(&self.bytes[self.at..self.end]);
        self.at += taken.used;
        taken.line
    }

    // Reads a piece more; false at the end of the input.
    fn refill(&mut self, input: &mut Stdin) -> io::Result<bool> {
        let end = input.read(&mut self.bytes)?;
        self.at = 0;
        self.end = end;
        Ok(end > 0)
    }
}

// Lines of standard input, and a report to standard output. Its memory is the same for every input.
#[derive(Drop)]
pub(crate) struct Desk {
    input: Stdin,
    piece: Piece,
    // None once the input has ended
    splitter: Option<LineSplitter>,
    output: BufWriter<Stdout>,
}

// A run, in whatever state: it answers a line in a buffer.
pub(crate) trait Hears {
    fn hear(&mut self, line: &[u8], buffer: &mut [u8]) -> Replied
        ensures { result.written ≤ length buffer.old };
}

impl Desk {
    pub(crate) fn new(rt: HostRuntime) -> io::Result<Desk> {
        Ok(Desk {
            input: rt.stdin(),
            piece: Piece {
                bytes: [0; 65536],
                at: 0,
                end: 0,
            },
            splitter: Some(LineSplitter::new()),
            output: BufWriter::new(rt.alloc(), rt.stdout())?,
        })
    }

    // The next line of the input, or none at its end.
    fn next_line(&mut self) -> io::Result<Option<Line>> {
        // A count, since a loop has to be seen to end, and an input need not.
        for _ in 0..u64::MAX {
            let Some(splitter) = &mut self.splitter else {
                break;
            };
            if let Some(line) = self.piece.next_line(splitter) {
                return Ok(Some(line));
            }
            if !self.piece.refill(&mut self.input)? {
                return Ok(self.splitter.take().and_then(|rest| rest.finish()));
            }
        }
        Ok(None)
    }

    // Hands the next line to the run, and its reply on; false at the end of the input.
    fn answer<H: Hears>(&mut self, run: &mut H, reply: &mut [u8]) -> io::Result<bool> {
        let Some(line) = self.next_line()? else {
            return Ok(false);
        };
        let replied = run.hear(line.as_slice(), reply);
        let written = replied.written;
        self.output.write_all(&reply[0..written])?;
        Ok(true)
    }

    // Hands lines to the run until it is done, or the input ends.
    pub(crate) fn answer_until<H: Hears, F: Fn(&H) -> bool>(
        &mut self,
        run: &mut H,
        reply: &mut [u8],
        done: F,
    ) -> io::Result<()>
        requires { (state : F) (x : _) → F.pre state x }
    {
        // A count, since a loop has to be seen to end, and an input need not.
        for _ in 0..u64::MAX {
            if !self.answer(run, reply)? || done(run) {
                break;
            }
        }
        Ok(())
    }

    // Writes the totals that a closed run gives.
    pub(crate) fn put_totals(&mut self, run: &ClosedRun, reply: &mut [u8]) -> io::Result<()> {
        if let Ok(written) = run.totals(reply) {
            self.output.write_all(&reply[0..written])?;
        }
        Ok(())
    }

    pub(crate) fn flush(&mut self) -> io::Result<()> {
        self.output.flush()
    }
}
