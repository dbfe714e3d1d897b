// A table of calls, with what each is to answer and leave, played on a device.
use alarms::{AlarmDevice, AlarmFault, Passage};
use std::process::Abort;
use std::test::Fail;
use times::Plain;

#[derive(Clone, Copy)]
pub enum Call {
    Set(u64),
    Clear,
    Pass(u64),
}

// How a pass ended, or nothing of another call, or why the call was refused.
pub type Answer = Result<Option<Passage>, AlarmFault>;

pub const DONE: Answer = Ok(None);

pub const RANG: Answer = Ok(Some(Passage::Rang));

pub const ARRIVED: Answer = Ok(Some(Passage::Arrived));

pub const BEFORE_CLOCK: Answer = Err(AlarmFault::BeforeClock);

pub const BEYOND_REACH: Answer = Err(AlarmFault::BeyondReach);

// A call, its answer, and the clock and the due time after it; times are plain forms.
pub type Row = (Call, Answer, u64, Option<u64>);

// `set` is the call by which this device is set: an alarm's or a short alarm's.
pub(crate) fn play<T: Plain, D: AlarmDevice<T>, S: Fn(&mut D, T) -> Result<(), AlarmFault>>(
    rt: &impl Abort,
    device: &mut D,
    rows: &[Row],
    set: S,
) -> Result<(), Fail>
    requires { S.IsAlwaysCallable set }
{
    for (call, answer, clock, due) in rows {
        let got = match call {
            Call::Set(t) => set(device, T::from_plain(*t)?).map(|()| None),
            Call::Pass(t) => device.pass(T::from_plain(*t)?).map(Some),
            Call::Clear => {
                device.clear();
                DONE
            }
        };
        assert_eq!(rt; got, *answer);
        assert_eq!(rt; device.clock().to_plain(), *clock);
        assert_eq!(rt; device.due().map(T::to_plain), *due);
    }
    Ok(())
}
