// What the first timer of a heap says of all pending ones, each the contract of a function, so that a check asks for its proof.
ghost use Rattle.slot_heaps.specs.Firsts.{FirstIsLeast, NoneByThen};

use times::Time;

// By hard time: the next wake-up is at the first timer's hard time, and that timer carries the mark.
fn first_is_least<T: Time>()
    ensures { FirstIsLeast T.Time.before }
{}

// By soft time: a wake-up is over once the first timer's soft time is after it.
fn none_by_then<T: Time>()
    ensures { NoneByThen T.Time.before }
{}
