ghost use Rattle.std.specs.Prelude.{◌≡◌};
ghost use Rattle.queue_rules.specs.Faults.{numeral};

// Why a call of the queue was refused.
#[derive(Clone, Copy, PartialEq, Eq, Debug)]
pub enum QueueFault {
    AlarmMoved = 0x31,
    HardBeforeSoft = 0x32,
    SoftPassed = 0x33,
    NumberPending = 0x34,
    QueueFull = 0x35,
    NotPending = 0x36,
    AdvancePassed = 0x37,
    LogShort = 0x38,
}

impl QueueFault {
    // The number by which the refusal is reported.
    pub fn number(self) -> u8
        ensures { result ≡ numeral self }
    {
        self as u8
    }
}
