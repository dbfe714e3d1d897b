// The timers of a sequence, by number, as the heaps are to hold them.

pub(crate) const NUMBERS: usize = 400;

// The times of a timer that is pending.
#[derive(Clone, Copy)]
pub(crate) struct Entry {
    pub(crate) soft: u32,
    pub(crate) hard: u32,
}

// A timer's rank in a heap, as one number: by time, then by number.
pub(crate) fn rank(time: u32, number: u32) -> u64 {
    (u64::from(time) << 32) | u64::from(number)
}

// The ranks of the pending timers by one of their times, in rising order, then u64::MAX: a None would be sorted to the front.
pub(crate) fn sorted_ranks<F: Fn(Entry) -> u32>(
    entries: &[Option<Entry>; NUMBERS],
    time: F,
) -> [u64; NUMBERS]
    requires { F.IsAlwaysCallable time }
{
    let mut ranks = [u64::MAX; NUMBERS];
    for (number, entry) in entries.iter().enumerate() {
        if let Some(entry) = *entry {
            ranks[number] = rank(time(entry), number as u32);
        }
    }
    ranks.sort_unstable();
    ranks
}

// The next number of a fixed sequence.
pub(crate) fn next(seed: u32) -> u32 {
    seed.wrapping_mul(1_664_525).wrapping_add(1_013_904_223)
}
