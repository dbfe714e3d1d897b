// Reading and exchanging the links of one heap.
ghost use Rattle.std.specs.Prelude.{◌≡◌, ◌<◌, length, slice_set};
ghost use Rattle.heap_links.specs.Columns.{ats, places, slot_at, place_of, Kept};
ghost use Rattle.heap_links.specs.Links.{Linked, Swapped};

use crate::keys::Key;
use crate::slots::{Link, Slot};
use times::Time;

// An index is widened by `as`, which loses nothing: by `usize::from` each proof needs a fact more.
pub fn slot_at<T: Time, K: Key<T>>(slots: &[Slot<T>], place: u16) -> u16
    requires { place < length slots.now }
    ensures { result ≡ slot_at K.Key.link slots.now place }
{
    K::link(&slots[place as usize]).at
}

pub fn place_of<T: Time, K: Key<T>>(slots: &[Slot<T>], slot: u16) -> u16
    requires { slot < length slots.now }
    ensures { result ≡ place_of K.Key.link slots.now slot }
{
    K::link(&slots[slot as usize]).place
}

// Each half of a link has a function of its own: one over both would take the change as a closure, and is no plainer.
fn set_at<T: Time, K: Key<T>>(slots: &mut [Slot<T>], place: u16, slot: u16)
    requires { place < length slots.old }
    ensures ats { ats K.Key.link slots.new ≡ slice_set (ats K.Key.link slots.old) place slot }
    ensures places { places K.Key.link slots.new ≡ places K.Key.link slots.old }
    ensures kept { Kept K.Key.other slots.old slots.new }
{
    let s = &mut slots[place as usize];
    let link = K::link(s);
    K::set_link(s, Link { at: slot, ..link });
}

fn set_place<T: Time, K: Key<T>>(slots: &mut [Slot<T>], slot: u16, place: u16)
    requires { slot < length slots.old }
    ensures ats { ats K.Key.link slots.new ≡ ats K.Key.link slots.old }
    ensures places { places K.Key.link slots.new ≡ slice_set (places K.Key.link slots.old) slot place }
    ensures kept { Kept K.Key.other slots.old slots.new }
{
    let s = &mut slots[slot as usize];
    let link = K::link(s);
    K::set_link(s, Link { place, ..link });
}

// Puts a slot at a place.
pub fn put<T: Time, K: Key<T>>(slots: &mut [Slot<T>], place: u16, slot: u16)
    requires place { place < length slots.old }
    requires slot { slot < length slots.old }
    ensures ats { ats K.Key.link slots.new ≡ slice_set (ats K.Key.link slots.old) place slot }
    ensures places { places K.Key.link slots.new ≡ slice_set (places K.Key.link slots.old) slot place }
    ensures kept { Kept K.Key.other slots.old slots.new }
{
    set_at::<T, K>(slots, place, slot);
    set_place::<T, K>(slots, slot, place);
}

// Exchanges the slots at two places of the heap.
pub fn exchange<T: Time, K: Key<T>>(slots: &mut [Slot<T>], p: u16, q: u16)
    requires linked { Linked K.Key.link slots.old }
    requires first { p < length slots.old }
    requires second { q < length slots.old }
    ensures linked { Linked K.Key.link slots.new }
    ensures swapped { Swapped (slot_at K.Key.link slots.old) (slot_at K.Key.link slots.new) p q }
    ensures moved { Swapped (place_of K.Key.link slots.old) (place_of K.Key.link slots.new) (slot_at K.Key.link slots.old p) (slot_at K.Key.link slots.old q) }
    ensures kept { Kept K.Key.other slots.old slots.new }
{
    let i = slot_at::<T, K>(slots, p);
    let j = slot_at::<T, K>(slots, q);
    put::<T, K>(slots, p, j);
    put::<T, K>(slots, q, i);
}
