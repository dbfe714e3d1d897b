// An open run on a board: a queue over lent slots, and the alarm device that was asked for.
use crate::desk::{Desk, Hears};
use alarm_chains::ChainedAlarm;
use alarms::{Alarm, AlarmDevice, Comparator};
use queue_rules::firing::Firing;
use runs::closed::ClosedRun;
use runs::kinds::NamedTime;
use runs::open::OpenRun;
use runs::opening::{Device, Opening};
use runs::replies::Replied;
use runs::waiting::WaitingRun;
use short_alarms::{DownCounter, LowBitMatcher};
use slot_heaps::slots::Slot;
use std::alloc::Global;
use timer_queue::queue::TimerQueue;

// Slots and log entries that are lent to a run.
const LENT: usize = 512;

// Room for the report of a line that fires them all.
const ROOM: usize = 63 * LENT + 23;

impl Hears for WaitingRun {
    fn hear(&mut self, line: &[u8], buffer: &mut [u8]) -> Replied {
        self.line(line, buffer)
    }
}

impl Hears for ClosedRun {
    fn hear(&mut self, _line: &[u8], buffer: &mut [u8]) -> Replied {
        self.late_line(buffer)
    }
}

// An open run, with the queue, the alarm and the log that are lent to it with each line.
#[derive(Drop)]
struct Board<'a, T: NamedTime, A: Alarm<T>> {
    run: OpenRun<T>,
    queue: TimerQueue<'a, T>,
    alarm: A,
    log: Vec<Firing<T>>,
}

impl<'a, T: NamedTime, A: Alarm<T>> Hears for Board<'a, T, A> {
    fn hear(&mut self, line: &[u8], buffer: &mut [u8]) -> Replied {
        self.run.line(
            &mut self.queue,
            &mut self.alarm,
            line,
            &mut self.log,
            buffer,
        )
    }
}

// Hands lines to the open run until it can be closed, and then the rest to the closed run, whose totals end the report.
fn play<T: NamedTime, A: Alarm<T> + Drop>(
    mut board: Board<'_, T, A>,
    desk: &mut Desk,
    reply: &mut [u8],
) -> anyhow::Result<()> {
    desk.answer_until(&mut board, reply, |board: &Board<'_, T, A>| {
        board.run.is_closing()
    })?;
    let Ok(mut closed) = board.run.close(&board.queue) else {
        return Ok(());
    };
    desk.answer_until(&mut closed, reply, |_: &ClosedRun| false)?;
    desk.put_totals(&closed, reply)?;
    Ok(())
}

// Opens the run with this alarm, and plays it to the end of the input.
fn run_on<T: NamedTime, A: Alarm<T> + Drop>(
    waiting: WaitingRun,
    mut alarm: A,
    desk: &mut Desk,
    heap: Global,
) -> anyhow::Result<()> {
    let filler = alarm.clock();
    let mut slots = vec![in heap; Slot::vacant(filler); LENT]?;
    // What an entry holds is written before it is read.
    let blank = Firing {
        number: 0,
        mark: false,
        wake: filler,
        soft: filler,
        hard: filler,
    };
    let log = vec![in heap; blank; LENT]?;
    let mut reply = vec![in heap; 0; ROOM]?;
    let mut queue = TimerQueue::over(&mut slots);
    let Ok(run) = waiting.open(&mut queue, &mut alarm) else {
        return Ok(());
    };
    play(
        Board {
            run,
            queue,
            alarm,
            log,
        },
        desk,
        &mut reply,
    )
}

// Makes the alarm that was asked for, at the start time.
pub(crate) fn run_at<T: NamedTime>(
    waiting: WaitingRun,
    opening: Opening,
    desk: &mut Desk,
    heap: Global,
) -> anyhow::Result<()> {
    let Ok(start) = T::from_plain(opening.start) else {
        return Ok(());
    };
    match opening.device {
        Device::Comparator => run_on(waiting, Comparator::new(start), desk, heap),
        Device::ChainedDownCounter => run_on(
            waiting,
            ChainedAlarm::new(DownCounter::new(start)),
            desk,
            heap,
        ),
        Device::ChainedLowBitMatcher => run_on(
            waiting,
            ChainedAlarm::new(LowBitMatcher::new(start)),
            desk,
            heap,
        ),
    }
}
