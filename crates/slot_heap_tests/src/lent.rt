// The heaps as a caller uses them who holds slots and a count, and not the type of the pending timers.
ghost use Rattle.std.specs.Prelude.{◌<◌, ◌≤◌, length};
ghost use Rattle.slot_heaps.specs.Pending.{Standing};

use slot_heaps::layout::lay_out;
use slot_heaps::pending::{insert, remove};
use slot_heaps::roots::{first_by_hard, first_by_soft};
use slot_heaps::search::find;
use slot_heaps::slots::Slot;
use slot_heaps::timer::Timer;
use times::Time;

// A timer goes in and out again, over slots of which nothing is known but their links: the order of times is no premise. Answers the first
// numbers by hard and by soft time while it was in, and the number that was taken out.
fn in_and_out<T: Time>(
    slots: &mut [Slot<T>],
    count: u16,
    timer: Timer<T>,
) -> Option<(u32, u32, u32)>
    requires standing { Standing count slots.old }
    requires room { count < length slots.old }
{
    insert(slots, count, timer);
    let (_, by_hard) = first_by_hard(slots, count + 1)?;
    let (_, by_soft) = first_by_soft(slots, count + 1)?;
    let slot = find(slots, count + 1, timer.number)?;
    let taken = remove(slots, slot, count);
    Some((by_hard.number, by_soft.number, taken.number))
}

// Two timers over these slots, which are searched before anything is laid out.
pub(crate) fn two_timers<T: Time>(
    slots: &mut [Slot<T>],
    early: T,
    late: T,
) -> Option<(u32, u32, u32)>
    requires { length slots.old ≤ 4096 }
{
    if find(slots, 0, 5).is_some() || slots.is_empty() {
        return None;
    }
    lay_out(slots);
    insert(
        slots,
        0,
        Timer {
            number: 5,
            soft: early,
            hard: late,
        },
    );
    if slots.len() < 2 {
        return None;
    }
    in_and_out(
        slots,
        1,
        Timer {
            number: 3,
            soft: late,
            hard: late,
        },
    )
}
