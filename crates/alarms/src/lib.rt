// What an alarm is: a clock and a due time. The comparator, and what the other devices build on.
#![tactic(auto)]

mod alarm_device;
mod comparators;
mod faults;
mod meaning;
mod short;
mod steps;

pub use alarm_device::AlarmDevice;
pub use comparators::Comparator;
pub use faults::{AlarmFault, Passage};
pub use meaning::Alarm;
pub use short::ShortAlarm;
pub use steps::ring_before;
