// A measured time has a place, a whole number; a tick is one place, 10 ms. That `before` is the order of the places is promised by each
// function and is no law: so the project has it, and whoever calls one is told.
ghost use Rattle.std.specs.Prelude.{◌≡◌, ℕ, Option};
ghost use Rattle.times.specs.Places.{Agrees, Places, capped, later};

use crate::order::Time;

pub trait Measured: Time {
    ghost place: { Self → ℕ };

    // The time at a place, if there is one.
    ghost at: { ℕ → Option Self };

    ghost last: { Self };

    // The place; and `before` is the order of the places.
    fn place(self) -> u64
        ensures value { result ≡ place self }
        ensures agrees { Agrees Self.Time.before place };

    // The time n ticks on, if there is one.
    fn checked_ahead(self, n: u32) -> Option<Self>
        ensures value { result ≡ later place at self n }
        ensures agrees { Agrees Self.Time.before place };

    // The last time, by its place.
    fn last() -> Self
        ensures { place result ≡ place last };

    // The time n ticks on, or the last time where there is none.
    fn ahead(self, n: u32) -> Self
        ensures value { result ≡ capped place at last self n }
        ensures agrees { Agrees Self.Time.before place }
    {
        self.checked_ahead(n).unwrap_or(Self::last())
    }

    ghost placed: { Places place at last };
}
