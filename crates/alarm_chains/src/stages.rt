// How the chain drives its short alarm.
ghost use Rattle.std.specs.Prelude.{◌≡◌, false, Some, None};
ghost use Rattle.times.specs.Places.{Agrees, capped};
ghost use Rattle.alarm_chains.specs.Chains.{Counted, goal_due, moved, stage_to, uncounted};
ghost use Rattle.alarms.specs.Meaning.{Gives, Sets, pass_to};

use alarms::{AlarmDevice, AlarmFault, Passage, ShortAlarm};
use times::{Measured, Time};

// Sets the short alarm to the goal, or as far ahead as it reaches if the goal is further.
pub(crate) fn aim<T: Measured, S: ShortAlarm<T>>(short: &mut S, goal: T) -> Result<(), AlarmFault>
    ensures value { Sets T.Time.before S.AlarmDevice.clock S.AlarmDevice.due short.old short.new (stage_to T.Time.before (capped T.Measured.place T.Measured.at T.Measured.last (S.AlarmDevice.clock short.old) S.ShortAlarm.reach) goal) result }
    ensures agrees { Agrees T.Time.before T.Measured.place }
{
    let furthest = short.clock().ahead(S::reach());
    if furthest.before(goal) {
        return short.set(furthest);
    }
    short.set(goal)
}

// Passes the short alarm to `t`, or to the goal if that comes first, and counts its rings.
pub(crate) fn follow<T: Measured, S: ShortAlarm<T>>(
    short: &mut S,
    goal: T,
    t: T,
) -> Result<(Passage, u64), AlarmFault>
    requires forward { T.Time.before t (S.AlarmDevice.clock short.old) ≡ false }
    requires ahead { T.Time.before goal (S.AlarmDevice.clock short.old) ≡ false }
    ensures value { Gives (pass_to T.Time.before (S.AlarmDevice.clock short.old) (Some goal) t) (uncounted result) (S.AlarmDevice.clock short.new) (goal_due T.Time.before (S.AlarmDevice.due short.new) goal) }
    ensures count { Counted S.ShortAlarm.reach (Some goal) (moved T.Measured.place S.AlarmDevice.clock short.old short.new) result }
{
    aim(short, goal)?;
    let mut rings = 0;
    'stages: while let Passage::Rang = short.pass(t)? {
        rings += 1;
        if !short.clock().before(goal) {
            return Ok((Passage::Rang, rings));
        }
        aim(short, goal)?;
    }
    Ok((Passage::Arrived, rings))
}

// Passes the short alarm to `t`, with no ring on the way.
pub(crate) fn pass_silent<T: Measured, S: ShortAlarm<T>>(
    short: &mut S,
    t: T,
) -> Result<Passage, AlarmFault>
    ensures { Gives (pass_to T.Time.before (S.AlarmDevice.clock short.old) None t) result (S.AlarmDevice.clock short.new) (S.AlarmDevice.due short.new) }
{
    short.clear();
    short.pass(t)
}
