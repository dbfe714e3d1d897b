// The chain: an alarm of any reach, made of a short one.
#![tactic(auto)]

mod chains;
mod stages;

pub use chains::ChainedAlarm;
