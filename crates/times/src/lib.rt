// Kinds of time: what every kind answers, and two of them.
#![tactic(auto)]

mod day_ticks;
mod faults;
mod order;
mod places;
mod plain;
#[cfg(test)]
mod tests;
mod ticks;

pub use day_ticks::DayTick;
pub use faults::TimeFault;
pub use order::Time;
pub use places::Measured;
pub use plain::Plain;
pub use ticks::Tick;
