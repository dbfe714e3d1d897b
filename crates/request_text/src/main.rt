// Reads a request file from standard input and writes it in words, a line for each line, and then
// how many lines, frames and refusals there were. What a line becomes is decided in the libraries.
#![tactic(auto)]

ghost use Rattle.std.specs.Prelude.{◌≡◌, ◌+◌, ◌≤◌, length, IfOk, OnOk};

use frames::faults::ReadFault;
use frames::read::read;
use frames::request::Request;
use lines::splitter::LineSplitter;
use request_words::buffers::put_line;
use request_words::place::LONGEST;
use request_words::tally::Tally;
use std::io;
use std::io::{Read, Stdin, Stdout, Write};

// What is to be written, and is not written yet. A buffer and its length: with the library's `BufWriter` the program would need a heap.
#[derive(Drop)]
struct Page {
    bytes: [u8; 65536],
    len: usize,
    out: Stdout,
    ghost within: { len ≤ 65536 },
}

impl Page {
    fn write_out(&mut self) -> io::Result<()>
        ensures { OnOk result (self.new.len ≡ 0) }
    {
        self.out.write_all(&self.bytes[..self.len])?;
        self.len = 0;
        Ok(())
    }

    // Sees that there is room for the longest line.
    fn make_room(&mut self) -> io::Result<()>
        ensures { OnOk result (self.new.len + 88 ≤ 65536) }
    {
        if self.len > 65536 - LONGEST {
            self.write_out()?;
        }
        Ok(())
    }

    fn put_line(&mut self, number: u64, answer: &Result<Request, ReadFault>) -> io::Result<()> {
        self.make_room()?;
        self.len = put_line(&mut self.bytes, self.len, number, answer).unwrap();
        Ok(())
    }

    fn put_summary(&mut self, tally: &Tally) -> io::Result<()> {
        self.make_room()?;
        self.len = tally.put_summary(&mut self.bytes, self.len).unwrap();
        Ok(())
    }

    fn flush(&mut self) -> io::Result<()> {
        self.write_out()?;
        self.out.flush()
    }
}

// The lines of a file that have come so far, counted and put in words.
#[derive(Drop)]
struct Desk {
    input: Stdin,
    splitter: LineSplitter,
    tally: Tally,
    page: Page,
}

impl Desk {
    fn new(rt: HostRuntime) -> Desk {
        Desk {
            input: rt.stdin(),
            splitter: LineSplitter::new(),
            tally: Tally::new(),
            page: Page {
                bytes: [0; 65536],
                len: 0,
                out: rt.stdout(),
            },
        }
    }

    // Reads a piece more; before a failed read is handed on, what was put in words so far is written.
    fn read_piece(&mut self, piece: &mut [u8]) -> io::Result<usize>
        ensures { IfOk result (λ n. n ≤ length piece.old) }
    {
        let count = self.input.read(piece);
        if count.is_err() {
            self.page.write_out()?;
        }
        count
    }

    // One line more of the file: counted, and put in words.
    fn take_line(&mut self, line: &[u8]) -> io::Result<()> {
        let answer = read(line);
        self.tally.count(&answer);
        self.page.put_line(self.tally.lines, &answer)
    }

    // The lines that end in one piece of the input.
    fn take_piece(&mut self, piece: &[u8]) -> io::Result<()> {
        let mut rest = piece;
        while !rest.is_empty() {
            if let Some(whole) = self.splitter.whole_line(rest) {
                self.take_line(&rest[..whole.len])?;
                rest = &rest[whole.used..];
            } else {
                let taken = self.splitter.feed(rest);
                if let Some(line) = taken.line {
                    self.take_line(line.as_slice())?;
                }
                rest = &rest[taken.used..];
            }
        }
        Ok(())
    }

    // The rest of the input, if it is a line, and the summary.
    fn finish(&mut self) -> io::Result<()> {
        if let Some(line) = self.splitter.finish() {
            self.take_line(line.as_slice())?;
        }
        self.page.put_summary(&self.tally)?;
        self.page.flush()
    }
}

fn main(rt: HostRuntime) -> io::Result<()> {
    let mut desk = Desk::new(rt);
    let mut piece = [0; 65536];
    // A count, since a loop has to be seen to end, and an input need not.
    for _ in 0..u64::MAX {
        let count = desk.read_piece(&mut piece)?;
        if count == 0 {
            break;
        }
        desk.take_piece(&piece[..count])?;
    }
    desk.finish()
}
