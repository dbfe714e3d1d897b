// A queue of one-shot timers over lent slots, with the fewest wake-ups.
#![tactic(auto)]

mod advancing;
mod aiming;
mod calls;
mod checks;
mod lookups;
pub mod queue;
mod serving;
