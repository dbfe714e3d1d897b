// Day-tick time: a day, and one of its 8,640,000 ticks.
ghost use Rattle.std.specs.Prelude.{◌^◌, ◌<◌};

mod kind;

// In the order of days, and of ticks within a day.
#[derive(Clone, Copy, PartialEq, Eq, PartialOrd, Ord, Debug)]
pub struct DayTick {
    day: u32,
    tick: u32,
    ghost within: { (day < 2 ^ 32) × (tick < 8640000) },
}
