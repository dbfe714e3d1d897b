// Request frames: hexadecimal, the check byte, and the six kinds of frame read and written. Which
// times, devices and purposes exist is no matter of this crate.
#![tactic(auto)]

pub mod check;
pub mod decode;
pub mod faults;
pub mod frame_bytes;
pub mod hex;
pub mod parse;
pub mod read;
pub mod request;
pub mod write;
