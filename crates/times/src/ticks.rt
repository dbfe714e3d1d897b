// Tick time: the places 0 to 2^62 − 1, and no others.
ghost use Rattle.std.specs.Prelude.{◌^◌, ◌<◌};

mod kind;

#[derive(Clone, Copy, PartialEq, Eq, PartialOrd, Ord, Debug)]
pub struct Tick {
    place: u64,
    ghost within: { place < 2 ^ 62 },
}
