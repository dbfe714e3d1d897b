// The first pending timer, by hard time or by soft time.
ghost use Rattle.std.specs.Prelude.{◌≡◌, ◌≤◌, length};
ghost use Rattle.heap_links.specs.Links.{Linked};
ghost use Rattle.slot_heaps.specs.Firsts.{Top};
ghost use Rattle.slot_heaps.specs.Pending.{by_hard, by_soft, pending as pending_slots, Standing};

use crate::pending::PendingTimers;
use heap_links::keys::{ByHard, BySoft, Key};
use heap_links::links::slot_at;
use heap_links::slots::Slot;
use heap_links::timer::Timer;
use times::Time;

// Of any key, and so not public: it asks that the key's heap is linked and holds the pending slots.
fn root<T: Time, K: Key<T>>(slots: &[Slot<T>], pending: u16) -> Option<(u16, Timer<T>)>
    requires linked { Linked K.Key.link slots.now }
    requires fits { pending ≤ length slots.now }
    requires same { pending_slots by_hard pending slots.now ≡ pending_slots K.Key.link pending slots.now }
    ensures { Top T.Time.before K.Key.time K.Key.link pending slots.now result }
{
    if pending == 0 {
        return None;
    }
    let slot = slot_at::<T, K>(slots, 0);
    Some((slot, slots[slot as usize].timer))
}

// The pending timer with the least hard time, of these the one with the lowest number, and its slot.
pub fn first_by_hard<T: Time>(slots: &[Slot<T>], pending: u16) -> Option<(u16, Timer<T>)>
    requires { Standing pending slots.now }
    ensures { Top T.Time.before (λ t. t.hard) by_hard pending slots.now result }
{
    root::<T, ByHard>(slots, pending)
}

// The pending timer with the least soft time, of these the one with the lowest number, and its slot.
pub fn first_by_soft<T: Time>(slots: &[Slot<T>], pending: u16) -> Option<(u16, Timer<T>)>
    requires { Standing pending slots.now }
    ensures { Top T.Time.before (λ t. t.soft) by_soft pending slots.now result }
{
    root::<T, BySoft>(slots, pending)
}

impl<T: Time> PendingTimers<'_, T> {
    // The pending timer with the least hard time, of these the one with the lowest number, and its slot.
    pub fn first_by_hard(&self) -> Option<(u16, Timer<T>)>
        ensures { Top T.Time.before (λ t. t.hard) by_hard self.now.count self.now.slots.now result }
    {
        first_by_hard(self.slots, self.count)
    }

    // The pending timer with the least soft time, of these the one with the lowest number, and its slot.
    pub fn first_by_soft(&self) -> Option<(u16, Timer<T>)>
        ensures { Top T.Time.before (λ t. t.soft) by_soft self.now.count self.now.slots.now result }
    {
        first_by_soft(self.slots, self.count)
    }
}
