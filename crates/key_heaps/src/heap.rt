// One heap over lent slots, by a key. The slots at the first `count` places are in it.
ghost use Rattle.std.specs.Prelude.{◌≡◌, ◌<◌, ◌≤◌, length, if◌then◌else◌};
ghost use Rattle.heap_links.specs.Columns.{slot_at, place_of, Kept};
ghost use Rattle.heap_links.specs.Links.{Linked, Swapped};
ghost use Rattle.key_heaps.specs.Sifts.{order};

use crate::compare::comes_first;
use heap_links::keys::Key;
use heap_links::links;
use heap_links::slots::Slot;
use std::marker::PhantomData;
use times::Time;

// Places and slots point at each other.
#[derive(Drop)]
pub(crate) struct Heap<'a, T: Time, K: Key<T>> {
    slots: &'a mut [Slot<T>],
    pub(crate) count: u16,
    key: PhantomData<K>,
    ghost linked: { Linked K.Key.link slots.now },
    ghost fits: { count ≤ length slots.now },
}

impl<'a, T: Time, K: Key<T>> Heap<'a, T, K> {
    pub(crate) fn over(slots: &'a mut [Slot<T>], count: u16) -> Self
        requires linked { Linked K.Key.link slots.old }
        requires fits { count ≤ length slots.old }
        ensures same_reference { result.slots.ghost_name ≡ slots.entry.ghost_name }
        ensures slots { result.slots.now ≡ slots.old }
        ensures count { result.count ≡ count }
    {
        Heap {
            slots,
            count,
            key: PhantomData,
        }
    }

    pub(crate) fn place_of(&self, slot: u16) -> u16
        requires { slot < length self.now.slots.now }
        ensures value { result ≡ place_of K.Key.link self.now.slots.now slot }
        ensures within { result < length self.now.slots.now }
    {
        links::place_of::<T, K>(self.slots, slot)
    }

    // Exchanges the slots at two places.
    pub(crate) fn exchange(&mut self, p: u16, q: u16)
        requires first { p < length self.old.slots.now }
        requires second { q < length self.old.slots.now }
        ensures same_reference { self.new.slots.ghost_name ≡ self.old.slots.ghost_name }
        ensures count { self.new.count ≡ self.old.count }
        ensures swapped { Swapped (slot_at K.Key.link self.old.slots.now) (slot_at K.Key.link self.new.slots.now) p q }
        ensures moved { Swapped (place_of K.Key.link self.old.slots.now) (place_of K.Key.link self.new.slots.now) (slot_at K.Key.link self.old.slots.now p) (slot_at K.Key.link self.old.slots.now q) }
        ensures kept { Kept K.Key.other self.old.slots.now self.new.slots.now }
    {
        links::exchange::<T, K>(self.slots, p, q);
    }

    // Whether the timer at place p comes before the one at place q.
    pub(crate) fn precedes(&self, p: u16, q: u16) -> bool
        requires first { p < length self.now.slots.now }
        requires second { q < length self.now.slots.now }
        ensures { result ≡ order T.Time.before K.Key.time self.now.slots.now (slot_at K.Key.link self.now.slots.now p) (slot_at K.Key.link self.now.slots.now q) }
    {
        let slots = &*self.slots;
        let i = links::slot_at::<T, K>(slots, p);
        let j = links::slot_at::<T, K>(slots, q);
        comes_first::<T, K>(&slots[usize::from(i)].timer, &slots[usize::from(j)].timer)
    }

    // Of two places the one whose timer comes first, and p where neither does.
    pub(crate) fn earlier(&self, p: u16, q: u16) -> u16
        requires first { p < length self.now.slots.now }
        requires second { q < length self.now.slots.now }
        ensures { result ≡ (if order T.Time.before K.Key.time self.now.slots.now (slot_at K.Key.link self.now.slots.now q) (slot_at K.Key.link self.now.slots.now p) then q else p) }
    {
        if self.precedes(q, p) { q } else { p }
    }
}
