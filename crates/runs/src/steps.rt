// What a request asks of an open run, with its times read.
ghost use Rattle.std.specs.Prelude.{◌≡◌};
ghost use Rattle.runs.specs.Steps.{advance_of, purposed, step_of, timer_of};
ghost use Rattle.times.specs.Places.{capped};

use crate::faults::RunFault;
use crate::purposes::Purpose;
use frames::request::Request;
use slot_heaps::timer::Timer;
use times::{Measured, Plain};

#[derive(Clone, Copy)]
pub enum Step<T> {
    Arm(Timer<T>),
    Cancel(u32),
    Advance(T),
    Close,
}

fn read_timer<T: Plain>(number: u32, soft: u64, hard: u64) -> Result<Timer<T>, RunFault>
    ensures { result ≡ timer_of number (T.Plain.reads soft) (T.Plain.reads hard) }
{
    let soft = T::from_plain(soft)?;
    let hard = T::from_plain(hard)?;
    Ok(Timer { number, soft, hard })
}

fn read_advance<T: Plain>(to: u64) -> Result<Step<T>, RunFault>
    ensures { result ≡ advance_of (T.Plain.reads to) }
{
    let to = T::from_plain(to)?;
    Ok(Step::Advance(to))
}

// A timer whose times lie as far ahead of the clock as its purpose says.
fn timer_by_purpose<T: Measured>(number: u32, purpose: u8, clock: T) -> Result<Timer<T>, RunFault>
    ensures { result ≡ purposed (capped T.Measured.place T.Measured.at T.Measured.last clock) number purpose }
{
    let (soft, hard) = Purpose::try_from(purpose)?.offsets();
    Ok(Timer {
        number,
        soft: clock.ahead(soft),
        hard: clock.ahead(hard),
    })
}

// What a request asks for at this clock, or why it asks for nothing.
pub(crate) fn read_step<T: Plain>(request: Request, clock: T) -> Result<Step<T>, RunFault>
    ensures { result ≡ step_of T.Plain.reads (capped T.Measured.place T.Measured.at T.Measured.last) clock request }
{
    match request {
        Request::Open {
            time_kind: _,
            device: _,
            start: _,
        } => Err(RunFault::OpenedAlready),
        Request::Arm { number, soft, hard } => Ok(Step::Arm(read_timer(number, soft, hard)?)),
        Request::Cancel { number } => Ok(Step::Cancel(number)),
        Request::Advance { to } => read_advance(to),
        Request::Close => Ok(Step::Close),
        Request::ArmByPurpose { number, purpose } => Ok(Step::Arm(timer_by_purpose(
            number, purpose, clock,
        )?)),
    }
}
