// A number of twelve bits.
ghost use Rattle.std.specs.Prelude.{◌≡◌, ◌%◌, ◌<◌};

#[derive(Clone, Copy)]
pub struct LowBits {
    pub value: u16,
    ghost within: { value < 4096 },
}

impl LowBits {
    // The low bits of a place.
    pub fn of(place: u64) -> Self
        ensures { result.value ≡ place % 4096 }
    {
        LowBits {
            value: (place % 4096) as u16,
        }
    }
}
