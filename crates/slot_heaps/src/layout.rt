// Slots laid out for a start: slot i stands at place i of both heaps, and none is pending.
ghost use Rattle.std.specs.Prelude.{◌≡◌, ◌≤◌, [], length};
ghost use Rattle.heap_links.specs.Columns.{timers};
ghost use Rattle.heap_links.specs.Links.{Straight};
ghost use Rattle.slot_heaps.specs.Pending.{by_hard, by_soft, listed, Standing};
ghost use Rattle.key_heaps.specs.Sifts.{BothHeaped};

use heap_links::slots::{Link, Slot};
use times::Time;

pub fn lay_out<T: Time>(slots: &mut [Slot<T>])
    requires { length slots.old ≤ 4096 }
    ensures hard { Straight by_hard (length slots.old) slots.new }
    ensures soft { Straight by_soft (length slots.old) slots.new }
    ensures timers { timers slots.new ≡ timers slots.old }
    ensures standing { Standing 0 slots.new }
    ensures listed { listed 0 slots.new ≡ [] }
    ensures ordered { BothHeaped T.Time.before 0 slots.new }
{
    for (i, slot) in slots.iter_mut().enumerate() {
        let at = i as u16;
        let link = Link { at, place: at };
        slot.hard = link;
        slot.soft = link;
    }
}
