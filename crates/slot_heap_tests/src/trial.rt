// Inserts and removes on the heaps, each compared with the reference.
ghost use Rattle.std.specs.Prelude.{◌<◌, ◌≤◌, length, IfSome};
ghost use Rattle.heap_links.specs.Columns.{place_of};
ghost use Rattle.slot_heaps.specs.Firsts.{Holds};
ghost use Rattle.slot_heaps.specs.Pending.{by_hard};

use crate::reference::{Entry, NUMBERS, next, rank, sorted_ranks};
use slot_heaps::pending::PendingTimers;
use slot_heaps::slots::Slot;
use slot_heaps::timer::Timer;
use std::process::Abort;
use std::test::Fail;
use times::Plain;

// The heaps, and the timers that they are to hold, by number.
#[derive(Drop)]
pub(crate) struct Trial<'a, T: Plain> {
    timers: PendingTimers<'a, T>,
    entries: [Option<Entry>; NUMBERS],
}

impl<'a, T: Plain> Trial<'a, T> {
    pub(crate) fn over(slots: &'a mut [Slot<T>]) -> Self
        requires { length slots.old ≤ 4096 }
    {
        Trial {
            timers: PendingTimers::over(slots),
            entries: [None; NUMBERS],
        }
    }

    // Inserts a timer of that number, with times from the dice.
    fn arm(&mut self, rt: &impl Abort, number: u32, dice: u32) -> Result<(), Fail>
        requires { self.old.timers.count < length self.old.timers.slots.now }
    {
        let soft = (dice >> 8) & 0x3f;
        let hard = soft + ((dice >> 16) & 0x1f);
        let timer = Timer {
            number,
            soft: T::from_plain(u64::from(soft))?,
            hard: T::from_plain(u64::from(hard))?,
        };
        assert!(rt; (number as usize) < self.entries.len());
        self.entries[number as usize] = Some(Entry { soft, hard });
        self.timers.insert(timer);
        Ok(())
    }

    // Removes a slot; its timer is one that was pending.
    fn take(&mut self, rt: &impl Abort, slot: u16) -> Result<(), Fail>
        requires within { slot < length self.old.timers.slots.now }
        requires there { place_of by_hard self.old.timers.slots.now slot < self.old.timers.count }
    {
        let timer = self.timers.remove(slot);
        let number = timer.number as usize;
        assert!(rt; number < self.entries.len());
        let entry = self.entries[number].take();
        assert!(rt; entry.is_some());
        Ok(())
    }

    // Removes the first timer of a heap, if there is one.
    fn pop(&mut self, rt: &impl Abort, first: Option<(u16, Timer<T>)>) -> Result<(), Fail>
        requires { IfSome first (λ f. Holds self.old.timers.count self.old.timers.slots.now f.0 f.1) }
    {
        match first {
            Some((slot, _)) => self.take(rt, slot),
            None => Ok(()),
        }
    }

    // Removes the timer of that number, if it is pending.
    fn cancel(&mut self, rt: &impl Abort, number: u32) -> Result<(), Fail> {
        assert!(rt; (number as usize) < self.entries.len());
        let slot = self.timers.find(number);
        assert_eq!(rt; slot.is_some(), self.entries[number as usize].is_some());
        match slot {
            Some(slot) => self.take(rt, slot),
            None => Ok(()),
        }
    }

    // One step of the sequence: an insert while there is room and the dice say so, or else a remove, by either heap or by number.
    fn step(&mut self, rt: &impl Abort, number: u32, dice: u32) -> Result<(), Fail> {
        if self.timers.count() < self.timers.capacity() && dice & 0x8000_0000 != 0 {
            return self.arm(rt, number, dice);
        }
        let first = match dice & 3 {
            0 => self.timers.first_by_hard(),
            1 => self.timers.first_by_soft(),
            _ => return self.cancel(rt, (dice >> 4) % number.saturating_add(1)),
        };
        self.pop(rt, first)
    }

    // The first timer of a heap has the least rank, or there is none.
    fn compare<F: Fn(Entry) -> u32>(
        &self,
        rt: &impl Abort,
        first: Option<(u16, Timer<T>)>,
        time: F,
    ) -> Result<(), Fail>
        requires { F.IsAlwaysCallable time }
    {
        let ranks = sorted_ranks(&self.entries, &time);
        let Some((_, timer)) = first else {
            assert_eq!(rt; ranks[0], u64::MAX);
            return Ok(());
        };
        let number = timer.number as usize;
        assert!(rt; number < self.entries.len());
        let held = self.entries[number].map(|entry| rank(time(entry), timer.number));
        assert_eq!(rt; held, Some(ranks[0]));
        Ok(())
    }

    fn compare_both(&self, rt: &impl Abort) -> Result<(), Fail> {
        self.compare(rt, self.timers.first_by_hard(), |e| e.hard)?;
        self.compare(rt, self.timers.first_by_soft(), |e| e.soft)
    }

    // An insert or a remove for each number, and the first timers compared after each.
    pub(crate) fn play(&mut self, rt: &impl Abort, mut dice: u32) -> Result<(), Fail> {
        for number in 0..NUMBERS as u32 {
            dice = next(dice);
            self.step(rt, number, dice)?;
            self.compare_both(rt)?;
        }
        Ok(())
    }
}
