// What a heap is ordered by: a time of the timer, and then its number. Each key has a link of its own in a slot.
ghost use Rattle.std.specs.Prelude.{◌≡◌};
ghost use Rattle.heap_links.specs.declared.slots.Link.{Link};
ghost use Rattle.heap_links.specs.declared.slots.Slot.{Slot};
ghost use Rattle.heap_links.specs.declared.timer.Timer.{Timer};

use crate::slots::{Link, Slot};
use crate::timer::Timer;
use times::Time;

pub trait Key<T: Time> {
    ghost time: { Timer T → T };

    ghost link: { Slot T → Link };

    // The link of the other heap.
    ghost other: { Slot T → Link };

    fn time(timer: &Timer<T>) -> T
        ensures { result ≡ time timer.now };

    fn link(slot: &Slot<T>) -> Link
        ensures { result ≡ link slot.now };

    fn set_link(slot: &mut Slot<T>, to: Link)
        ensures link { link slot.new ≡ to }
        ensures other { other slot.new ≡ other slot.old }
        ensures timer { slot.new.timer ≡ slot.old.timer };
}

pub struct ByHard;

pub struct BySoft;

impl<T: Time> Key<T> for ByHard {
    ghost time = { λ t. t.hard };

    ghost link = { λ s. s.hard };

    ghost other = { λ s. s.soft };

    fn time(timer: &Timer<T>) -> T {
        timer.hard
    }

    fn link(slot: &Slot<T>) -> Link {
        slot.hard
    }

    fn set_link(slot: &mut Slot<T>, to: Link) {
        slot.hard = to;
    }
}

impl<T: Time> Key<T> for BySoft {
    ghost time = { λ t. t.soft };

    ghost link = { λ s. s.soft };

    ghost other = { λ s. s.hard };

    fn time(timer: &Timer<T>) -> T {
        timer.soft
    }

    fn link(slot: &Slot<T>) -> Link {
        slot.soft
    }

    fn set_link(slot: &mut Slot<T>, to: Link) {
        slot.soft = to;
    }
}
