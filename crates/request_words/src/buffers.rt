// One line of a request file in words, put at a place of a lent buffer.
ghost use Rattle.std.specs.Prelude.{◌+◌, ◌≤◌};
ghost use Rattle.frames.specs.declared.request.Request.TheVariants.{Open, Arm, ArmByPurpose};
ghost use Rattle.request_words.specs.Placing.{PlacedIn};
ghost use Rattle.request_words.specs.Words.{request_words, answer_words, full_line};

use crate::place::{Sheet, has_room};
use frames::faults::ReadFault;
use frames::request::Request;
use frames::write::{hex_byte, hex_time};

// Each asks for the room of the longest request: how much there is changes with every text, and is no fact of the type.
impl Sheet<'_> {
    ghost use Rattle.request_words.specs.Sheets.{room, Puts};

    fn put_open(&mut self, time_kind: u8, device: u8, start: u64)
        requires { 65 ≤ room self.old }
        ensures puts { Puts (request_words (Open time_kind device start)) self.old self.new }
        ensures short { self.new.at ≤ self.old.at + 65 }
    {
        self.put(b"open time-kind=");
        self.put(&hex_byte(time_kind));
        self.put(b" device=");
        self.put(&hex_byte(device));
        self.put(b" start=");
        self.put(&hex_time(start));
    }

    fn put_arm(&mut self, number: u32, soft: u64, hard: u64)
        requires { 65 ≤ room self.old }
        ensures puts { Puts (request_words (Arm number soft hard)) self.old self.new }
        ensures short { self.new.at ≤ self.old.at + 65 }
    {
        self.put(b"arm number=");
        self.put_number(number);
        self.put(b" soft=");
        self.put(&hex_time(soft));
        self.put(b" hard=");
        self.put(&hex_time(hard));
    }

    fn put_purpose(&mut self, number: u32, purpose: u8)
        requires { 65 ≤ room self.old }
        ensures puts { Puts (request_words (ArmByPurpose number purpose)) self.old self.new }
        ensures short { self.new.at ≤ self.old.at + 65 }
    {
        self.put(b"arm-by-purpose number=");
        self.put_number(number);
        self.put(b" purpose=");
        self.put(&hex_byte(purpose));
    }

    fn put_request(&mut self, request: &Request)
        requires { 65 ≤ room self.old }
        ensures puts { Puts (request_words request.now) self.old self.new }
        ensures short { self.new.at ≤ self.old.at + 65 }
    {
        match *request {
            Request::Open {
                time_kind,
                device,
                start,
            } => self.put_open(time_kind, device, start),
            Request::Arm { number, soft, hard } => self.put_arm(number, soft, hard),
            Request::Cancel { number } => {
                self.put(b"cancel number=");
                self.put_number(number);
            }
            Request::Advance { to } => {
                self.put(b"advance to=");
                self.put(&hex_time(to));
            }
            Request::Close => self.put(b"close"),
            Request::ArmByPurpose { number, purpose } => self.put_purpose(number, purpose),
        }
    }

    fn put_answer(&mut self, answer: &Result<Request, ReadFault>)
        requires { 65 ≤ room self.old }
        ensures puts { Puts (answer_words answer.now) self.old self.new }
        ensures short { self.new.at ≤ self.old.at + 65 }
    {
        match answer {
            Ok(request) => self.put_request(request),
            Err(fault) => {
                self.put(b"refused ");
                self.put(&hex_byte(fault.number()));
            }
        }
    }
}

// Puts a line's words and a line feed at a place of a buffer, and answers the place behind them; or
// none, where there is no room for the longest line.
pub fn put_line(
    out: &mut [u8],
    at: usize,
    number: u64,
    answer: &Result<Request, ReadFault>,
) -> Option<usize>
    ensures { PlacedIn 88 (full_line number answer.now) out.old at out.new result }
{
    if !has_room(out, at) {
        return None;
    }
    let mut sheet = Sheet { out, at };
    sheet.put_number(number);
    sheet.put(b": ");
    sheet.put_answer(answer);
    sheet.put(b"\n");
    Some(sheet.at)
}
