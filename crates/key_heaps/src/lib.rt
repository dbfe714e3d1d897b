// One binary heap over lent slots, by a key.
#![tactic(auto)]

mod compare;
mod heap;
pub mod heaps;
mod sifts;
