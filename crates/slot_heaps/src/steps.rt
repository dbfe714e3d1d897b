// A timer goes into a free slot and into both heaps, and out again. The slots and their count come as two: these are the steps between which
// what `PendingTimers` says of both does not hold.
ghost use Rattle.std.specs.Prelude.{◌≡◌, ◌+◌, ◌<◌, ◌≤◌, true, false, length, Some, slice_set};
ghost use Rattle.std.specs.List.{slice_get};
ghost use Rattle.heap_links.specs.Columns.{timers, slot_at, place_of};
ghost use Rattle.slot_heaps.specs.Pending.{by_hard, listed, pending as pending_slots, Filled, Inserted, Standing};
ghost use Rattle.key_heaps.specs.Sifts.{BothHeaped};

use heap_links::keys::{ByHard, BySoft};
use heap_links::links::slot_at;
use heap_links::slots::Slot;
use heap_links::timer::Timer;
use key_heaps::heaps::{push, take_out};
use times::Time;

fn fill<T: Time>(slots: &mut [Slot<T>], slot: u16, timer: Timer<T>)
    requires { slot < length slots.old }
    ensures { Filled slot timer slots.old slots.new }
{
    slots[slot as usize].timer = timer;
}

// Adds a timer to the `pending` ones, in the slot that is free first by hard time.
pub fn insert<T: Time>(slots: &mut [Slot<T>], pending: u16, timer: Timer<T>)
    requires standing { Standing pending slots.old }
    requires room { pending < length slots.old }
    ensures standing { Standing (pending + 1) slots.new }
    ensures timers { timers slots.new ≡ slice_set (timers slots.old) (slot_at by_hard slots.old pending) timer }
    ensures slots { pending_slots by_hard (pending + 1) slots.new ≡ slice_set (pending_slots by_hard pending slots.old) (slot_at by_hard slots.old pending) true }
    ensures listed { Inserted timer (listed pending slots.old) (listed (pending + 1) slots.new) }
    ensures ordered { BothHeaped T.Time.before pending slots.old → BothHeaped T.Time.before (pending + 1) slots.new }
{
    let slot = slot_at::<T, ByHard>(slots, pending);
    fill(slots, slot, timer);
    push::<T, ByHard>(slots, slot, pending);
    push::<T, BySoft>(slots, slot, pending);
}

// Takes the timer out of a pending slot, which leaves `left` pending ones.
pub fn remove<T: Time>(slots: &mut [Slot<T>], slot: u16, left: u16) -> Timer<T>
    requires standing { Standing (left + 1) slots.old }
    requires within { slot < length slots.old }
    requires there { place_of by_hard slots.old slot ≤ left }
    ensures standing { Standing left slots.new }
    ensures timers { timers slots.new ≡ timers slots.old }
    ensures value { slice_get (timers slots.old) slot ≡ Some result }
    ensures slots { pending_slots by_hard left slots.new ≡ slice_set (pending_slots by_hard (left + 1) slots.old) slot false }
    ensures listed { Inserted result (listed left slots.new) (listed (left + 1) slots.old) }
    ensures ordered { BothHeaped T.Time.before (left + 1) slots.old → BothHeaped T.Time.before left slots.new }
{
    take_out::<T, ByHard>(slots, slot, left);
    take_out::<T, BySoft>(slots, slot, left);
    slots[slot as usize].timer
}
