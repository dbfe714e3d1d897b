// Which of two timers comes first in a heap.
ghost use Rattle.std.specs.Prelude.{◌≡◌};
ghost use Rattle.key_heaps.specs.Sooner.{sooner};

use heap_links::keys::Key;
use heap_links::timer::Timer;
use times::Time;

// By hand: a kind of time answers one question, `before`, and has no `Ord` that could be chained with the numbers'.
pub(crate) fn comes_first<T: Time, K: Key<T>>(x: &Timer<T>, y: &Timer<T>) -> bool
    ensures { result ≡ sooner T.Time.before K.Key.time x.now y.now }
{
    let a = K::time(x);
    let b = K::time(y);
    a.before(b) || !b.before(a) && x.number < y.number
}
