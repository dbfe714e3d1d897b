// The rules of the timer queue: what each call answers, leaves and logs, and what is claimed of every list of calls.
#![tactic(auto)]

pub mod fault;
pub mod firing;
mod laws;
