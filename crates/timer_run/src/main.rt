// Runs a request file: lines from standard input, the report to standard output, the totals at the end if the run was closed.
// What a line does is decided in the libraries; here bytes are moved, and the run is opened and closed when it may be.
#![tactic(auto)]

mod boards;
mod desk;

use boards::run_at;
use desk::Desk;
use runs::opening::TimeKind;
use runs::waiting::WaitingRun;
use times::{DayTick, Tick};

fn main(rt: HostRuntime) -> anyhow::Result<()> {
    let heap = rt.alloc();
    let mut desk = Desk::new(rt)?;
    let mut run = WaitingRun::new();
    let mut reply = [0; 23];
    desk.answer_until(
        &mut run,
        &mut reply,
        |run: &WaitingRun| run.accepted().is_some(),
    )?;
    if let Some(opening) = run.accepted() {
        match opening.kind {
            TimeKind::Ticks => run_at::<Tick>(run, opening, &mut desk, heap)?,
            TimeKind::DayTicks => run_at::<DayTick>(run, opening, &mut desk, heap)?,
        }
    }
    desk.flush()?;
    Ok(())
}
