// Why a line is refused, or an opening or a closing: the fault of the layer below, unaltered, or one of the run's own.
ghost use Rattle.std.specs.Prelude.{◌≡◌};
ghost use Rattle.runs.specs.declared.faults.RunFault.TheVariants.{Line, Frame, Time, Queue, UnknownPurpose};
ghost use Rattle.runs.specs.Numbers.{run_number};

use crate::purposes::NoSuchPurpose;
use frames::faults::{FrameFault, LineFault};
use queue_rules::fault::QueueFault;
use times::TimeFault;

#[derive(Clone, Copy, PartialEq, Eq, Debug)]
pub enum RunFault {
    Line(LineFault),
    Frame(FrameFault),
    Time(TimeFault),
    Queue(QueueFault),
    // no such kind of time, or no such device
    UnknownDevice,
    UnknownPurpose,
    NotOpenedYet,
    OpenedAlready,
    // between an accepted frame and the opening or closing that it asks for, or after the closing
    NotNow,
    TooManyLines,
    ShortBuffer,
    // no such frame was accepted, or the alarm is not at the start time
    NotAccepted,
}

impl RunFault {
    pub fn number(self) -> u8
        ensures { result ≡ run_number self }
    {
        match self {
            // a fault of a layer below keeps its number; a case that holds one can have none of its own
            RunFault::Line(fault) => fault.number(),
            RunFault::Frame(fault) => fault.number(),
            RunFault::Time(fault) => fault.number(),
            RunFault::Queue(fault) => fault.number(),
            RunFault::UnknownDevice => 0x24,
            RunFault::UnknownPurpose => 0x25,
            RunFault::NotOpenedYet => 0x41,
            RunFault::OpenedAlready => 0x42,
            RunFault::NotNow => 0x43,
            RunFault::TooManyLines => 0x44,
            RunFault::ShortBuffer => 0x45,
            RunFault::NotAccepted => 0x46,
        }
    }
}

// By hand, since a derived `From` promises nothing of the case that it makes.
impl From<LineFault> for RunFault {
    ghost from_gives = { λ fault r. r ≡ Line fault };

    fn from(fault: LineFault) -> RunFault {
        RunFault::Line(fault)
    }
}

impl From<FrameFault> for RunFault {
    ghost from_gives = { λ fault r. r ≡ Frame fault };

    fn from(fault: FrameFault) -> RunFault {
        RunFault::Frame(fault)
    }
}

impl From<TimeFault> for RunFault {
    ghost from_gives = { λ fault r. r ≡ Time fault };

    fn from(fault: TimeFault) -> RunFault {
        RunFault::Time(fault)
    }
}

impl From<QueueFault> for RunFault {
    ghost from_gives = { λ fault r. r ≡ Queue fault };

    fn from(fault: QueueFault) -> RunFault {
        RunFault::Queue(fault)
    }
}

impl From<NoSuchPurpose> for RunFault {
    ghost from_gives = { λ _ r. r ≡ UnknownPurpose };

    fn from(_: NoSuchPurpose) -> RunFault {
        RunFault::UnknownPurpose
    }
}
