// Slots lent for timers, and the links of a heap over them.
#![tactic(auto)]

pub mod keys;
pub mod links;
pub mod slots;
pub mod timer;
