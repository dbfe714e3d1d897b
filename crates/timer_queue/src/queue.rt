// A queue of one-shot timers over lent slots. The first 4,096 slots, or all if there are fewer, are usable.
ghost use Rattle.std.specs.Prelude.{◌≡◌, ◌+◌, false, length};
ghost use Rattle.std.specs.List.{AllByRecursion};
ghost use Rattle.std.proofs.Props.{props};
ghost use Rattle.slot_heaps.specs.Pending.{listed};
ghost use Rattle.queue_rules.specs.Calls.{usable_of};
ghost use Rattle.queue_rules.specs.Timers.{Distinct, Distinct-prop};

use slot_heaps::pending::PendingTimers;
use slot_heaps::slots::Slot;
use times::Time;

// The usable slots, in which the pending timers lie, and those past them, which are never written. Each pending slot has a timer, no number is pending twice, and no soft time is after its hard time.
#[derive(Drop)]
pub struct TimerQueue<'a, T: Time> {
    pub(crate) timers: PendingTimers<'a, T>,
    pub(crate) spare: &'a mut [Slot<T>],
    ghost counted: { length timers.slots.now ≡ usable_of (length timers.slots.now + length spare.now) },
    ghost held: { length (listed timers.count timers.slots.now) ≡ timers.count },
    ghost distinct: { Distinct (listed timers.count timers.slots.now) } by { Distinct-prop (listed timers.count timers.slots.now) },
    ghost proper: { AllByRecursion (λ x. T.Time.before x.hard x.soft ≡ false) (listed timers.count timers.slots.now) } by { Prim.hlevel props },
}
