// A request file in words: what each line asks for, or the number it is refused by.
#![tactic(auto)]

pub mod buffers;
pub mod hex;
pub mod place;
pub mod tally;
pub mod words;
