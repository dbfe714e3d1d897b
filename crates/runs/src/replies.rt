// The answer to a line: what the caller is told, and what stands in the buffer.
use crate::faults::RunFault;

mod answering;

pub(crate) use answering::{answer, ignore};

// Why a line was refused, and which line.
#[derive(Clone, Copy, PartialEq, Eq, Debug)]
pub struct Refusal {
    pub line: u32,
    pub fault: RunFault,
}

// How many bytes of the buffer were written, and whether the line was carried out.
#[derive(Clone, Copy, PartialEq, Eq, Debug)]
pub struct Replied {
    pub written: usize,
    pub answer: Result<(), Refusal>,
}
