// What a run counts: its lines, and the wake-ups and firings of its advances.
ghost use Rattle.std.specs.Prelude.{◌*◌, ◌<◌, ◌≤◌};

mod counting;

// A line wakes at most 4,096 times and fires as many timers at most, so that no count overflows.
#[derive(Clone, Copy)]
pub struct Counts {
    lines: u32,
    wakes: u32,
    firings: u32,
    ghost few: { (lines ≤ 1000000) × (wakes ≤ 4096 * lines) × (firings ≤ 4096 * lines) },
}

// The counts of a run that has room for one line more, which is counted whatever comes of it.
#[derive(Clone, Copy)]
pub(crate) struct NextLine {
    pub(crate) counts: Counts,
    ghost few: { counts.lines < 1000000 },
}
