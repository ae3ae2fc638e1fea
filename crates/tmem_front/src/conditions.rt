// What is waited for under the core's lock, and how threads are told of it.
ghost use Rattle.tmem_seats.specs.Held.{side_of};
ghost use Rattle.tmem_seats.specs.Seats.{IsDrained, HasFlushedOrEnded, HasMoreOrShut, HasRoomOrShut, HasWorkOrShut, KnowsOrEnded};
ghost use Rattle.std.specs.Sync.Mutex.{mutex_guard_value};

use crate::patience::Patience;
use std::alloc::{AllocError, Global};
use std::sync::{Condvar, MutexGuard, Wait};
use tmem_disk::Disk;
use tmem_effect::Effect;
use tmem_invariants::Invariants;
use tmem_seats::{CoreSeat, JournalSeat, StoreNaming};
use tmem_spine::MOST_PASSES;
use tmem_tentative::Attempt;

/// Who waits for a flush or a commit sleeps here, under the core's lock. Nobody sleeps who would find what is waited for, and nobody is
/// told of a flush or of the end before the core knows of it.
#[derive(Drop)]
pub(crate) struct Conditions {
    // more that is durable
    flushed: Condvar,
    // work for a flusher
    committed: Condvar,
    // for each pass, by its number, a commit that writes what its transaction has read
    changed: Vec<Condvar>,
}

impl Conditions {
    /// Nobody sleeps yet.
    pub(crate) fn new(alloc: Global) -> Result<Conditions, AllocError> {
        let mut changed = Vec::with_capacity(alloc, MOST_PASSES as usize)?;
        for _ in 0..MOST_PASSES {
            changed.push(Condvar::new())?;
        }
        Ok(Conditions {
            flushed: Condvar::new(),
            committed: Condvar::new(),
            changed,
        })
    }

    /// Sleeps until it is told, or the patience is over, where no more than so many are known durable.
    pub(crate) fn sleep_for_more<'a, N: StoreNaming, T: Invariants + Drop, P: Patience>(
        &self,
        patience: &P,
        core: MutexGuard<'a, CoreSeat<N, T>>,
        number: u64,
    ) -> MutexGuard<'a, CoreSeat<N, T>>
        requires { ¬ HasFlushedOrEnded number (mutex_guard_value core) }
    {
        patience.sleep(&self.flushed, core)
    }

    /// The same where as many wait to be durable as may.
    pub(crate) fn sleep_for_room<'a, N: StoreNaming, T: Invariants + Drop, P: Patience>(
        &self,
        patience: &P,
        core: MutexGuard<'a, CoreSeat<N, T>>,
    ) -> MutexGuard<'a, CoreSeat<N, T>>
        requires { ¬ HasRoomOrShut N.name.start (mutex_guard_value core) }
    {
        patience.sleep(&self.flushed, core)
    }

    /// The same where no more than so many are committed. A commit wakes the pass of this number that writes what the attempt read.
    pub(crate) fn sleep_for_another<'a, N: StoreNaming, T: Invariants + Drop, P: Patience>(
        &self,
        patience: &P,
        mut core: MutexGuard<'a, CoreSeat<N, T>>,
        _at: u64,
        number: u64,
        attempt: &Attempt,
    ) -> MutexGuard<'a, CoreSeat<N, T>>
        requires { ¬ HasMoreOrShut N.name.start _at (mutex_guard_value core) }
    {
        core.sleep(number, &attempt.reads);
        patience.sleep(self.changed_of(number), core)
    }

    /// Sleeps until it is told, where none waits to be durable.
    pub(crate) fn sleep_for_work<'a, R: Wait, N: StoreNaming, T: Invariants + Drop>(
        &self,
        rt: &R,
        mut core: MutexGuard<'a, CoreSeat<N, T>>,
    ) -> MutexGuard<'a, CoreSeat<N, T>>
        requires { ¬ HasWorkOrShut N.name.start (mutex_guard_value core) }
    {
        core.rest();
        self.committed.wait(rt, core)
    }

    /// Lets the core's lock go, and tells whoever waits for a flush. The core knows what the journal has made durable. Where the front is
    /// shut, it tells all others too.
    pub(crate) fn tell<D: Disk, N: StoreNaming, T: Invariants + Drop>(
        &self,
        core: MutexGuard<CoreSeat<N, T>>,
        _journal: &JournalSeat<D, N>,
    )
        requires { KnowsOrEnded N.name.start (side_of _journal.now).durable (mutex_guard_value core) }
    {
        let is_shut = core.is_shut();
        self.let_go(core);
        if is_shut {
            self.end_waits_for_commits();
        }
    }

    /// The same where the front was shut.
    pub(crate) fn tell_end<N: StoreNaming, T: Invariants + Drop>(
        &self,
        core: MutexGuard<CoreSeat<N, T>>,
    )
        requires { IsDrained (mutex_guard_value core) }
    {
        self.let_go(core);
        self.end_waits_for_commits();
    }

    /// Lets the core's lock go, and tells of a commit: the flushers, where one sleeps, and each pass that waits for what this effect
    /// writes.
    pub(crate) fn tell_commit<N: StoreNaming, T: Invariants + Drop>(
        &self,
        mut core: MutexGuard<CoreSeat<N, T>>,
        effect: &Effect,
    ) {
        let woken = core.wake(effect);
        let wakes_flushers = core.rouse();
        drop(core);
        if wakes_flushers {
            self.committed.notify_all();
        }
        if woken != 0 {
            self.wake(woken);
        }
    }

    fn let_go<N: StoreNaming, T: Invariants + Drop>(&self, core: MutexGuard<CoreSeat<N, T>>) {
        drop(core);
        self.flushed.notify_all();
    }

    // Tells each flusher and each pass, though nothing was committed.
    fn end_waits_for_commits(&self) {
        self.committed.notify_all();
        self.wake(u32::MAX);
    }

    // What the pass of this number waits for. (There are as many as passes.)
    fn changed_of(&self, number: u64) -> &Condvar {
        self.changed.get(number as usize).unwrap_or(&self.committed)
    }

    // Wakes the passes whose bits are set.
    fn wake(&self, woken: u32) {
        for (number, changed) in self.changed.iter().enumerate() {
            if woken >> (number % 32) & 1 == 1 {
                changed.notify_all();
            }
        }
    }
}
