// The theorems about the definitions of the queue, each the contract of a function, so that a check asks for its proof.
ghost use Rattle.queue_rules.specs.Claims.{ClaimsHold};
ghost use Rattle.queue_rules.specs.Greedy.{WalkIsGreedy};
ghost use Rattle.queue_rules.specs.Listed.{CallsRecorded};
ghost use Rattle.queue_rules.specs.Readings.{Readings};
ghost use Rattle.queue_rules.specs.Rearranging.{OrderOfListingIsFree};
ghost use Rattle.queue_rules.specs.States.{StatesStand};
ghost use Rattle.queue_rules.specs.Trials.{WrongRulesRefused};
ghost use Rattle.queue_rules.specs.WakeUps.{WalkGoesOn};

use times::Time;

// Of every list of calls: no timer is missed, no shorter list of times would do, the marked entries certify it, nothing else is logged.
fn claims_hold<T: Time>()
    ensures { ClaimsHold T.Time.before }
{}

// Every list of calls from every start has such a history.
fn calls_are_recorded<T: Time>()
    ensures { CallsRecorded T.Time.before }
{}

// An advance is no wake-up, or one at the least hard time and then an advance over the timers that it leaves.
fn walk_goes_on<T: Time>()
    ensures { WalkGoesOn T.Time.before }
{}

// Every state that a list of calls leaves: pending timers by rising number, no more than slots, none overdue, the alarm due at the least.
fn states_stand<T: Time>()
    ensures { StatesStand T.Time.before }
{}

// The wake times of an advance are the points of the textbook greedy.
fn walk_is_greedy<T: Time>()
    ensures { WalkIsGreedy T.Time.before }
{}

// An advance answers and logs the same, whatever order the pending timers are listed in.
fn order_of_listing_is_free<T: Time>()
    ensures { OrderOfListingIsFree T.Time.before }
{}

// Worked examples, at ticks and at day-ticks.
fn readings_compute()
    ensures { Readings }
{}

// What queues with a wrong rule would leave breaks the claims.
fn wrong_rules_are_refused()
    ensures { WrongRulesRefused }
{}
