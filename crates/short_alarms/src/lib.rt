// The short devices: the down-counter and the low-bit matcher.
#![tactic(auto)]

mod down_counters;
mod low_bit_matchers;
mod low_bits;
mod reaches;

pub use down_counters::DownCounter;
pub use low_bit_matchers::LowBitMatcher;
