// A search for a number among the pending timers.
ghost use Rattle.std.specs.Prelude.{◌≡◌, ◌≤◌, ◌&&◌, length, ◌==◌, nat_lt, position};
ghost use Rattle.slot_heaps.specs.Firsts.{Found};

use crate::pending::PendingTimers;
use heap_links::slots::Slot;
use times::Time;

fn index_of<T: Time>(slots: &[Slot<T>], pending: u16, number: u32) -> Option<usize>
    ensures { result ≡ position (λ s. nat_lt s.hard.place pending && s.timer.number == number) slots.now }
{
    slots.iter().position(|slot| slot.hard.place < pending && slot.timer.number == number)
}

// The slot in which a timer of that number is pending. Nothing is asked of the links.
pub fn find<T: Time>(slots: &[Slot<T>], pending: u16, number: u32) -> Option<u16>
    requires { length slots.now ≤ 4096 }
    ensures { Found number pending slots.now result }
{
    index_of(slots, pending, number).map(|i| i as u16)
}

impl<T: Time> PendingTimers<'_, T> {
    // The slot in which a timer of that number is pending.
    pub fn find(&self, number: u32) -> Option<u16>
        ensures { Found number self.now.count self.now.slots.now result }
    {
        find(self.slots, self.count, number)
    }
}
