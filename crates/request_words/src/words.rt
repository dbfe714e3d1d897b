// One line of a request file in words. `buffers` puts the same words in a lent buffer: a formatter promises what it wrote if it answers Ok, and
// not that it does.
ghost use Rattle.std.specs.Prelude.{Some};
ghost use Rattle.request_words.specs.Words.{request_words, answer_words, line_words};

use crate::hex::Hex;
use frames::faults::ReadFault;
use frames::request::Request;
use std::fmt;

// A request in words.
#[derive(Clone, Copy)]
pub struct RequestWords(pub Request);

impl fmt::Display for RequestWords {
    ghost output = { λ x. Some (request_words x.0) };

    fn fmt<W: fmt::Write>(&self, f: &mut fmt::Formatter<W>) -> fmt::Result {
        match self.0 {
            Request::Open {
                time_kind,
                device,
                start,
            } => {
                write!(
                    f,
                    "open time-kind={} device={} start={}",
                    Hex::from(time_kind),
                    Hex::from(device),
                    Hex::from(start)
                )
            }
            Request::Arm { number, soft, hard } => {
                write!(
                    f,
                    "arm number={number} soft={} hard={}",
                    Hex::from(soft),
                    Hex::from(hard)
                )
            }
            Request::Cancel { number } => write!(f, "cancel number={number}"),
            Request::Advance { to } => write!(f, "advance to={}", Hex::from(to)),
            Request::Close => write!(f, "close"),
            Request::ArmByPurpose { number, purpose } => {
                write!(
                    f,
                    "arm-by-purpose number={number} purpose={}",
                    Hex::from(purpose)
                )
            }
        }
    }
}

// A line's number, and what the line asks for or the number it is refused by.
#[derive(Clone, Copy)]
pub struct LineWords {
    pub number: u64,
    pub answer: Result<Request, ReadFault>,
}

impl fmt::Display for LineWords {
    ghost output = { λ x. Some (line_words x.number x.answer) };

    fn fmt<W: fmt::Write>(&self, f: &mut fmt::Formatter<W>) -> fmt::Result {
        match self.answer {
            Ok(request) => write!(f, "{}: {}", self.number, RequestWords(request)),
            Err(fault) => write!(f, "{}: refused {}", self.number, Hex::from(fault.number())),
        }
    }
}
