// The chain makes an alarm of a short one: it goes for its goal stage by stage.
ghost use Rattle.std.specs.Prelude.{◌≡◌, None};
ghost use Rattle.alarm_chains.specs.Chains.{Counted, chain_clock, chain_due, moved, uncounted};
ghost use Rattle.alarms.specs.Meaning.{Passes};

use crate::stages::{aim, follow, pass_silent};
use alarms::{Alarm, AlarmDevice, AlarmFault, Passage, ShortAlarm};
use times::{Measured, Time};

#[derive(Drop)]
pub struct ChainedAlarm<T, S> {
    short: S,
    // means something only while the short alarm is due
    goal: T,
}

impl<T: Measured, S: ShortAlarm<T>> ChainedAlarm<T, S> {
    pub fn new(mut device: S) -> Self
        ensures clock { chain_clock S.AlarmDevice.clock result ≡ S.AlarmDevice.clock device }
        ensures due { chain_due T.Time.before S.AlarmDevice.due result ≡ None }
    {
        device.clear();
        let goal = device.clock();
        ChainedAlarm {
            short: device,
            goal,
        }
    }

    // Passes to `t`, and answers also how often the short alarm rang.
    pub fn pass_counted(&mut self, t: T) -> Result<(Passage, u64), AlarmFault>
        ensures value { Passes T.Time.before (chain_clock S.AlarmDevice.clock) (chain_due T.Time.before S.AlarmDevice.due) self.old self.new t (uncounted result) }
        ensures count { Counted S.ShortAlarm.reach (chain_due T.Time.before S.AlarmDevice.due self.old) (moved T.Measured.place (chain_clock S.AlarmDevice.clock) self.old self.new) result }
    {
        if t.before(self.short.clock()) {
            return Err(AlarmFault::BeforeClock);
        }
        match self.due() {
            Some(goal) => follow(&mut self.short, goal, t),
            None => Ok((pass_silent(&mut self.short, t)?, 0)),
        }
    }
}

impl<T: Measured, S: ShortAlarm<T>> AlarmDevice<T> for ChainedAlarm<T, S> {
    ghost clock = { chain_clock S.AlarmDevice.clock };

    ghost due = { chain_due T.Time.before S.AlarmDevice.due };

    fn clock(&self) -> T {
        self.short.clock()
    }

    fn due(&self) -> Option<T> {
        let stage = self.short.due()?;
        (!self.goal.before(stage)).then_some(self.goal)
    }

    fn clear(&mut self) {
        self.short.clear();
    }

    fn pass(&mut self, t: T) -> Result<Passage, AlarmFault> {
        let (passage, _) = self.pass_counted(t)?;
        Ok(passage)
    }
}

impl<T: Measured, S: ShortAlarm<T>> Alarm<T> for ChainedAlarm<T, S> {
    fn set(&mut self, t: T) -> Result<(), AlarmFault> {
        aim(&mut self.short, t)?;
        self.goal = t;
        Ok(())
    }
}
