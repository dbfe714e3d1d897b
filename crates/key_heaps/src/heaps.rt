// One heap: a free slot goes in, a slot at any place comes out. Each asks that the heap is linked: two heaps share the slots, and neither type
// can be held while the other heap is written.
ghost use Rattle.std.specs.Prelude.{◌+◌, ◌<◌, ◌≤◌, true, false, length};
ghost use Rattle.heap_links.specs.Columns.{place_of};
ghost use Rattle.heap_links.specs.Links.{Linked};
ghost use Rattle.key_heaps.specs.Members.{Marked};
ghost use Rattle.key_heaps.specs.Sifts.{Heaped};

use crate::heap::Heap;
use heap_links::keys::Key;
use heap_links::slots::Slot;
use times::Time;

// Puts a free slot into the heap of `count` slots.
pub fn push<T: Time, K: Key<T>>(slots: &mut [Slot<T>], slot: u16, count: u16)
    requires linked { Linked K.Key.link slots.old }
    requires within { slot < length slots.old }
    requires free { count ≤ place_of K.Key.link slots.old slot }
    ensures marked { Marked K.Key.link K.Key.other slot true count (count + 1) slots.old slots.new }
    ensures ordered { Heaped T.Time.before K.Key.time K.Key.link slots.old count → Heaped T.Time.before K.Key.time K.Key.link slots.new (count + 1) }
{
    let mut heap = Heap::<T, K>::over(slots, count);
    let p = heap.place_of(slot);
    heap.exchange(p, count);
    heap.sift_up(count);
}

// Takes a slot out of the heap, which leaves `left` slots in it.
pub fn take_out<T: Time, K: Key<T>>(slots: &mut [Slot<T>], slot: u16, left: u16)
    requires linked { Linked K.Key.link slots.old }
    requires within { slot < length slots.old }
    requires fits { left < length slots.old }
    requires there { place_of K.Key.link slots.old slot ≤ left }
    ensures marked { Marked K.Key.link K.Key.other slot false (left + 1) left slots.old slots.new }
    ensures ordered { Heaped T.Time.before K.Key.time K.Key.link slots.old (left + 1) → Heaped T.Time.before K.Key.time K.Key.link slots.new left }
{
    let mut heap = Heap::<T, K>::over(slots, left);
    let p = heap.place_of(slot);
    heap.exchange(p, left);
    if p < left {
        heap.mend(p);
    }
}
