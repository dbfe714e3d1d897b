// A time as a number of 64 bits, as it lies in memory and in frames.
ghost use Rattle.std.specs.Prelude.{◌≡◌, ℕ, Option};
ghost use Rattle.std.specs.Option.{ok_or};
ghost use Rattle.times.specs.Plain.{PlainForm};
ghost use Rattle.times.specs.declared.faults.TimeFault.TheVariants.{NoSuchTime};

use crate::faults::TimeFault;
use crate::places::Measured;

pub trait Plain: Measured {
    ghost plain: { Self → ℕ };

    // The time with a plain form, if there is one.
    ghost reads: { ℕ → Option Self };

    fn to_plain(self) -> u64
        ensures { result ≡ plain self };

    fn from_plain(form: u64) -> Result<Self, TimeFault>
        ensures { result ≡ ok_or (reads form) NoSuchTime };

    ghost inverse: { PlainForm plain reads };
}
