// Moving a slot of a heap up or down, to where it belongs.
ghost use Rattle.std.specs.Prelude.{◌≡◌, ◌+◌, ◌<◌, length};
ghost use Rattle.heap_links.specs.Columns.{slot_at};
ghost use Rattle.heap_links.specs.Links.{Moved};
ghost use Rattle.key_heaps.specs.HeapOrder.{FirstChild, Rising};
ghost use Rattle.key_heaps.specs.Sifts.{order, Rises, Sinks, Mends};

use crate::heap::Heap;
use heap_links::keys::Key;
use times::Time;

impl<T: Time, K: Key<T>> Heap<'_, T, K> {
    // Whether the slot at place p comes before the one at its parent.
    fn rises(&self, p: u16) -> bool
        requires { p < length self.now.slots.now }
        ensures { Rising (order T.Time.before K.Key.time self.now.slots.now) (slot_at K.Key.link self.now.slots.now) p result }
    {
        p > 0 && self.precedes(p, (p - 1) / 2)
    }

    // Moves the slot at place `from` up, until its parent does not come after it.
    pub(crate) fn sift_up(&mut self, from: u16)
        requires { from < length self.old.slots.now }
        ensures same_reference { self.new.slots.ghost_name ≡ self.old.slots.ghost_name }
        ensures moved { Moved K.Key.link K.Key.other (from + 1) self.old.slots.now self.new.slots.now }
        ensures ordered { Rises (order T.Time.before K.Key.time self.old.slots.now) (slot_at K.Key.link self.old.slots.now) from (slot_at K.Key.link self.new.slots.now) }
    {
        let mut p = from;
        while self.rises(p) {
            let parent = (p - 1) / 2;
            self.exchange(parent, p);
            p = parent;
        }
    }

    // The child of place p in the heap that comes first.
    fn first_child(&self, p: u16) -> Option<u16>
        requires { p < self.now.count }
        ensures { FirstChild (order T.Time.before K.Key.time self.now.slots.now) (slot_at K.Key.link self.now.slots.now) p self.now.count result }
    {
        let count = u32::from(self.count);
        let left = 2 * u32::from(p) + 1;
        if left >= count {
            return None;
        }
        let right = left + 1;
        if right >= count {
            return Some(left as u16);
        }
        Some(self.earlier(left as u16, right as u16))
    }

    // Moves the slot at place `from` of the heap down, until no child comes before it.
    pub(crate) fn sift_down(&mut self, from: u16)
        requires { from < self.old.count }
        ensures same_reference { self.new.slots.ghost_name ≡ self.old.slots.ghost_name }
        ensures moved { Moved K.Key.link K.Key.other self.old.count self.old.slots.now self.new.slots.now }
        ensures ordered { Sinks (order T.Time.before K.Key.time self.old.slots.now) (slot_at K.Key.link self.old.slots.now) from self.old.count (slot_at K.Key.link self.new.slots.now) }
    {
        let mut p = from;
        while let Some(child) = self.first_child(p) {
            if !self.precedes(child, p) {
                return;
            }
            self.exchange(p, child);
            p = child;
        }
    }

    // Moves the slot at place p of the heap up or down, to where it belongs.
    pub(crate) fn mend(&mut self, p: u16)
        requires { p < self.old.count }
        ensures same_reference { self.new.slots.ghost_name ≡ self.old.slots.ghost_name }
        ensures moved { Moved K.Key.link K.Key.other self.old.count self.old.slots.now self.new.slots.now }
        ensures ordered { Mends (order T.Time.before K.Key.time self.old.slots.now) (slot_at K.Key.link self.old.slots.now) p self.old.count (slot_at K.Key.link self.new.slots.now) }
    {
        if self.rises(p) {
            self.sift_up(p);
        } else {
            self.sift_down(p);
        }
    }
}
