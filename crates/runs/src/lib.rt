// The run of a request file: it waits, is open, and is closed, each a type of its own. Lines go in, and frames of the report
// come out. An open run is lent its queue and the alarm with every line.
#![tactic(auto)]

pub mod closed;
pub mod counts;
pub mod faults;
mod finishing;
pub mod kinds;
mod laws;
pub mod open;
pub mod opening;
mod performing;
pub mod purposes;
mod reading;
pub mod replies;
mod report;
pub mod steps;
pub mod waiting;
