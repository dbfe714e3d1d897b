// The kinds of time that an open frame can name.
ghost use Rattle.std.specs.Prelude.{◌≡◌};
ghost use Rattle.runs.specs.declared.opening.TimeKind.{TimeKind};
ghost use Rattle.runs.specs.declared.opening.TimeKind.TheVariants.{Ticks, DayTicks};

use crate::opening::TimeKind;
use times::{DayTick, Plain, Tick};

pub trait NamedTime: Plain {
    ghost kind: { TimeKind };

    fn kind() -> TimeKind
        ensures { result ≡ kind };
}

impl NamedTime for Tick {
    ghost kind = { Ticks };

    fn kind() -> TimeKind {
        TimeKind::Ticks
    }
}

impl NamedTime for DayTick {
    ghost kind = { DayTicks };

    fn kind() -> TimeKind {
        TimeKind::DayTicks
    }
}
