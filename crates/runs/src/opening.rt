// What an open frame asks for: a kind of time, an alarm device and a start time.
ghost use Rattle.std.specs.Prelude.{◌≡◌, if◌then◌else◌, Ok, Err};
ghost use Rattle.runs.specs.Opening.{kind_of, device_of, is_time, opens};
ghost use Rattle.times.specs.declared.faults.TimeFault.TheVariants.{NoSuchTime};
ghost use Rattle.runs.specs.declared.faults.RunFault.TheVariants.{UnknownDevice};
ghost use Rattle.std.specs.Option.{ok_or};

use crate::faults::RunFault;
use frames::request::Request;
use times::{DayTick, Plain, Tick, TimeFault};

#[derive(Clone, Copy, PartialEq, Eq, Debug)]
pub enum TimeKind {
    Ticks,
    DayTicks,
}

#[derive(Clone, Copy, PartialEq, Eq, Debug)]
pub enum Device {
    Comparator,
    ChainedDownCounter,
    ChainedLowBitMatcher,
}

// The start time is in its plain form, and is a time of its kind.
#[derive(Clone, Copy, PartialEq, Eq, Debug)]
pub struct Opening {
    pub kind: TimeKind,
    pub device: Device,
    pub start: u64,
}

impl TryFrom<u8> for TimeKind {
    type Error = RunFault;

    ghost try_from_gives = { λ byte r. r ≡ ok_or (kind_of byte) UnknownDevice };

    fn try_from(byte: u8) -> Result<TimeKind, RunFault> {
        match byte {
            0 => Ok(TimeKind::Ticks),
            1 => Ok(TimeKind::DayTicks),
            _ => Err(RunFault::UnknownDevice),
        }
    }
}

impl TryFrom<u8> for Device {
    type Error = RunFault;

    ghost try_from_gives = { λ byte r. r ≡ ok_or (device_of byte) UnknownDevice };

    fn try_from(byte: u8) -> Result<Device, RunFault> {
        match byte {
            0 => Ok(Device::Comparator),
            1 => Ok(Device::ChainedDownCounter),
            2 => Ok(Device::ChainedLowBitMatcher),
            _ => Err(RunFault::UnknownDevice),
        }
    }
}

// Whether a plain form is a time of its kind.
fn check_time(kind: TimeKind, plain: u64) -> Result<(), TimeFault>
    ensures { result ≡ (if is_time kind plain then Ok tt else Err NoSuchTime) }
{
    match kind {
        TimeKind::Ticks => Tick::from_plain(plain).map(|_| ()),
        TimeKind::DayTicks => DayTick::from_plain(plain).map(|_| ()),
    }
}

// What a request opens a run with, or why it opens none.
pub fn opening_of(request: Request) -> Result<Opening, RunFault>
    ensures { result ≡ opens request }
{
    let Request::Open {
        time_kind,
        device,
        start,
    } = request
    else {
        return Err(RunFault::NotOpenedYet);
    };
    let kind = TimeKind::try_from(time_kind)?;
    let device = Device::try_from(device)?;
    check_time(kind, start)?;
    Ok(Opening {
        kind,
        device,
        start,
    })
}
