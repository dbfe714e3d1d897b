// Lines cut out of an input that comes in pieces: each in fixed memory, whatever its length.
#![tactic(auto)]

pub mod line;
pub mod splitter;
pub mod whole;
