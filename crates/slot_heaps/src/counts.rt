// How many timers are pending, and how many can be.
ghost use Rattle.std.specs.Prelude.{◌≡◌, ◌≤◌, length};

use crate::pending::PendingTimers;
use times::Time;

impl<T: Time> PendingTimers<'_, T> {
    // How many timers are pending.
    pub fn count(&self) -> u16
        ensures value { result ≡ self.now.count }
        ensures fits { result ≤ length self.now.slots.now }
    {
        self.count
    }

    // How many timers can be pending.
    pub fn capacity(&self) -> u16
        ensures value { result ≡ length self.now.slots.now }
        ensures small { result ≤ 4096 }
    {
        self.slots.len() as u16
    }
}
