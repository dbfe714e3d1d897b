// A slot holds a timer and its links in the two heaps. Slots never move: a heap moves links. A link is an index: the memory is lent by the
// owner, and there is no heap to point into.
ghost use Rattle.std.specs.Prelude.{◌≡◌, min};
ghost use Rattle.heap_links.specs.Vacant.{vacant as a_vacant};

use crate::timer::Timer;
use times::Time;

// A heap's links at one index: which slot stands at that place, and at which place that slot stands.
#[derive(Clone, Copy, Default)]
pub struct Link {
    pub at: u16,
    pub place: u16,
}

#[derive(Clone, Copy)]
pub struct Slot<T> {
    pub timer: Timer<T>,
    pub hard: Link,
    pub soft: Link,
}

impl<T: Time> Slot<T> {
    // A slot to lend. What it holds is written before it is read; `filler` is any time of the kind.
    pub fn vacant(filler: T) -> Self
        ensures { result ≡ a_vacant filler }
    {
        Slot {
            timer: Timer {
                number: 0,
                soft: filler,
                hard: filler,
            },
            hard: Link::default(),
            soft: Link::default(),
        }
    }
}

// How many of the slots lent are usable: the first 4,096, or all if there are fewer.
pub fn usable(lent: usize) -> u16
    ensures { result ≡ min lent 4096 }
{
    lent.min(4096) as u16
}
