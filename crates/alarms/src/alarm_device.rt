// What every alarm device answers: a clock, and a due time or none.
ghost use Rattle.std.specs.Prelude.{◌≡◌, Option};
ghost use Rattle.alarms.specs.Meaning.{Clears, NotPast, Passes};

use crate::faults::{AlarmFault, Passage};
use times::Time;

pub trait AlarmDevice<T: Time> {
    ghost clock: { Self → T };

    ghost due: { Self → Option T };

    fn clock(&self) -> T
        ensures { result ≡ clock self.now };

    fn due(&self) -> Option<T>
        ensures value { result ≡ due self.now }
        ensures ahead { NotPast T.Time.before (clock self.now) result };

    fn clear(&mut self)
        ensures { Clears clock due self.old self.new };

    fn pass(&mut self, t: T) -> Result<Passage, AlarmFault>
        ensures { Passes T.Time.before clock due self.old self.new t result };
}
