// Two binary heaps over lent slots, one by hard time and one by soft time.
#![tactic(auto)]

mod counts;
mod laws;
pub mod layout;
pub mod pending;
pub mod roots;
pub mod search;
mod steps;

// What the slots are, for those who use the heaps.
pub mod slots {
    pub use heap_links::slots::{Link, Slot, usable};
}

pub mod timer {
    pub use heap_links::timer::Timer;
}
