// A kind of time has one question: is one time before another?
ghost use Rattle.std.specs.Prelude.{◌≡◌, Bool};
ghost use Rattle.times.specs.Order.{StrictOrder};

pub trait Time: Copy {
    ghost before: { Self → Self → Bool };

    fn before(self, other: Self) -> bool
        ensures { result ≡ before self other };

    ghost ordered: { StrictOrder before };
}
