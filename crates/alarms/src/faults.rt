// What a pass came to, and why an alarm refuses.
ghost use Rattle.std.specs.Prelude.{◌≡◌};
ghost use Rattle.alarms.specs.Faults.{alarm_fault_number};

#[derive(Clone, Copy, PartialEq, Eq, Debug)]
pub enum Passage {
    Rang,
    Arrived,
}

#[derive(Clone, Copy, PartialEq, Eq, Debug)]
pub enum AlarmFault {
    BeforeClock = 0x01,
    BeyondReach = 0x02,
}

impl AlarmFault {
    pub fn number(self) -> u8
        ensures { result ≡ alarm_fault_number self }
    {
        self as u8
    }
}
