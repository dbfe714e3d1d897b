// The pending timers, in two heaps over lent slots.
ghost use Rattle.std.specs.Prelude.{◌≡◌, ◌+◌, ◌<◌, ◌≤◌, [], true, false, length, Some, slice_set};
ghost use Rattle.std.specs.List.{slice_get};
ghost use Rattle.heap_links.specs.Columns.{timers, slot_at, place_of};
ghost use Rattle.heap_links.specs.Links.{Straight};
ghost use Rattle.slot_heaps.specs.Pending.{by_hard, by_soft, listed, pending as pending_slots, Inserted, Standing};
ghost use Rattle.key_heaps.specs.Sifts.{Heaped};

use crate::layout::lay_out;
pub use crate::steps::{insert, remove};
use heap_links::slots::Slot;
use heap_links::timer::Timer;
use times::Time;

// Lent slots, and how many of them are pending. Places and slots of each heap point at each other, and both heaps hold the same slots and are
// in order.
#[derive(Drop)]
pub struct PendingTimers<'a, T: Time> {
    pub(crate) slots: &'a mut [Slot<T>],
    pub(crate) count: u16,
    ghost standing: { Standing count slots.now },
    ghost hard_order: { Heaped T.Time.before (λ x. x.hard) by_hard slots.now count },
    ghost soft_order: { Heaped T.Time.before (λ x. x.soft) by_soft slots.now count },
}

impl<'a, T: Time> PendingTimers<'a, T> {
    // Nothing is pending in these slots.
    pub fn over(slots: &'a mut [Slot<T>]) -> Self
        requires { length slots.old ≤ 4096 }
        ensures same_reference { result.slots.ghost_name ≡ slots.entry.ghost_name }
        ensures count { result.count ≡ 0 }
        ensures hard { Straight by_hard (length slots.old) result.slots.now }
        ensures soft { Straight by_soft (length slots.old) result.slots.now }
        ensures timers { timers result.slots.now ≡ timers slots.old }
        ensures length { length result.slots.now ≡ length slots.old }
        ensures listed { listed result.count result.slots.now ≡ [] }
    {
        lay_out(slots);
        PendingTimers { slots, count: 0 }
    }

    // Nothing is pending any more.
    pub fn clear(&mut self)
        ensures same_reference { self.new.slots.ghost_name ≡ self.old.slots.ghost_name }
        ensures count { self.new.count ≡ 0 }
        ensures hard { Straight by_hard (length self.old.slots.now) self.new.slots.now }
        ensures soft { Straight by_soft (length self.old.slots.now) self.new.slots.now }
        ensures timers { timers self.new.slots.now ≡ timers self.old.slots.now }
        ensures length { length self.new.slots.now ≡ length self.old.slots.now }
        ensures listed { listed self.new.count self.new.slots.now ≡ [] }
    {
        lay_out(self.slots);
        self.count = 0;
    }

    // Adds a timer.
    pub fn insert(&mut self, timer: Timer<T>)
        requires { self.old.count < length self.old.slots.now }
        ensures same_reference { self.new.slots.ghost_name ≡ self.old.slots.ghost_name }
        ensures count { self.new.count ≡ self.old.count + 1 }
        ensures timers { timers self.new.slots.now ≡ slice_set (timers self.old.slots.now) (slot_at by_hard self.old.slots.now self.old.count) timer }
        ensures slots { pending_slots by_hard self.new.count self.new.slots.now ≡ slice_set (pending_slots by_hard self.old.count self.old.slots.now) (slot_at by_hard self.old.slots.now self.old.count) true }
        ensures length { length self.new.slots.now ≡ length self.old.slots.now }
        ensures listed { Inserted timer (listed self.old.count self.old.slots.now) (listed self.new.count self.new.slots.now) }
    {
        insert(self.slots, self.count, timer);
        self.count += 1;
    }

    // Takes the timer out of a pending slot.
    pub fn remove(&mut self, slot: u16) -> Timer<T>
        requires within { slot < length self.old.slots.now }
        requires there { place_of by_hard self.old.slots.now slot < self.old.count }
        ensures same_reference { self.new.slots.ghost_name ≡ self.old.slots.ghost_name }
        ensures count { self.new.count + 1 ≡ self.old.count }
        ensures timers { timers self.new.slots.now ≡ timers self.old.slots.now }
        ensures value { slice_get (timers self.old.slots.now) slot ≡ Some result }
        ensures slots { pending_slots by_hard self.new.count self.new.slots.now ≡ slice_set (pending_slots by_hard self.old.count self.old.slots.now) slot false }
        ensures length { length self.new.slots.now ≡ length self.old.slots.now }
        ensures listed { Inserted result (listed self.new.count self.new.slots.now) (listed self.old.count self.old.slots.now) }
    {
        let timer = remove(self.slots, slot, self.count - 1);
        self.count -= 1;
        timer
    }
}
