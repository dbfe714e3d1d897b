// Why a number is refused as a time.
ghost use Rattle.std.specs.Prelude.{◌≡◌};
ghost use Rattle.times.specs.Faults.{time_fault_number};

#[derive(Clone, Copy, PartialEq, Eq, Debug)]
pub enum TimeFault {
    NoSuchTime = 0x23,
}

impl TimeFault {
    pub fn number(self) -> u8
        ensures { result ≡ time_fault_number self }
    {
        self as u8
    }
}
