// Callers of a job, in threads that share a store.
ghost use Rattle.std.specs.Prelude.{◌≡◌, ◌+◌, ◌-◌, ◌^◌, min, IfOk};
ghost use Rattle.tmem_bench.specs.Transactions.{Does};
ghost use Rattle.tmem_bench.specs.declared.figures.Work.TheVariants.{OnStore};
ghost use Rattle.tmem_tree.specs.Plans.{FitsSteps, FitsVariables, FitsNames, FitsSignatures};

use crate::error::{BenchError, now, since};
use crate::figures::{Figures, Work};
use crate::jobs::{Callers, Job, MANY, SLOTS, deposits};
use std::alloc::Global;
use std::rt::Clock;
use std::sync::Wait;
use std::thread::{self, Threads, map_indices};
use std::time::{Duration, Instant};
use tmem_builtins::put;
use tmem_core::Settled;
use tmem_disk::Disk;
use tmem_fault::Fault;
use tmem_front::{Front, Gathering, Pace, Pass, StoreNaming};
use tmem_invariants::Invariants;
use tmem_state::MAX_RECORDS;
use tmem_tree::{Plan, StoredSteps, Tx};

// A batch has so many records at most.
const RECORDS: u16 = MAX_RECORDS as u16;

/// Whether so much time is over since then, or the clock cannot be read.
pub fn is_over<R: Clock>(rt: &R, start: Instant, time: Duration) -> bool {
    match start.elapsed(rt) {
        Ok(elapsed) => elapsed >= time,
        Err(_) => true,
    }
}

// The pace of a flusher that counts its turns.
#[derive(Drop)]
struct Counted<'a, R: Clock> {
    pace: Gathering<'a, R>,
    turns: u64,
}

impl<R: Clock> Pace for Counted<'_, R> {
    fn next(&mut self) -> bool
        ensures { self.new.turns ≡ min (self.old.turns + 1) (2 ^ 64 - 1) }
    {
        self.turns = self.turns.saturating_add(1);
        self.pace.next()
    }

    fn next_when_full(&mut self) -> bool
        ensures { self.new.turns ≡ min (self.old.turns + 1) (2 ^ 64 - 1) }
    {
        self.turns = self.turns.saturating_add(1);
        self.pace.next_when_full()
    }
}

/// What threads do with a store that they share. The functions that start threads know no more of it.
pub trait SharedStore {
    /// Puts something into the accounts, registers the invariant, and makes that durable.
    fn prepare<R: Wait>(&self, rt: &R, alloc: Global) -> Result<(), Fault>;

    /// Does a caller's part of a job, until its time from the start is over.
    fn work<R: Clock + Wait>(
        &self,
        rt: &R,
        alloc: Global,
        job: Job,
        start: Instant,
    ) -> Result<Figures, Fault>
        ensures { IfOk result (λ had. had.work ≡ OnStore job.act) };

    /// Makes durable what is committed by one caller or by several, until the store is shut. Answers in how many flushes.
    fn flush<R: Clock + Wait>(&self, rt: &R, has_several: bool) -> Result<u64, Fault>;

    /// Nothing is settled any more.
    fn close<R: Wait>(&self, rt: &R);

    /// Fills the log of a store of many variables.
    fn fill<R: Wait>(&self, rt: &R, alloc: Global) -> Result<(), Fault>;
}

impl<D: Disk + Drop, N: StoreNaming, T: Invariants + Drop, S: StoredSteps + Drop> SharedStore
    for Front<D, N, T, S> {
    fn prepare<R: Wait>(&self, rt: &R, alloc: Global) -> Result<(), Fault> {
        let tx = deposits(alloc)?;
        let mut pass = self.acquire_pass(rt)?;
        let settled = settle_once(rt, self, &mut pass, tx);
        self.release_pass(rt, pass)?;
        settled?;
        self.flush_once(rt)?;
        Ok(())
    }

    fn work<R: Clock + Wait>(
        &self,
        rt: &R,
        alloc: Global,
        job: Job,
        start: Instant,
    ) -> Result<Figures, Fault>
        ensures { IfOk result (λ had. had.work ≡ OnStore job.act) }
    {
        let plan = self.plan(job.act.transaction(alloc)?)?;
        let mut pass = self.acquire_pass(rt)?;
        let had = settle_until(rt, self, &mut pass, &plan, job, start);
        self.release_pass(rt, pass)?;
        had
    }

    fn flush<R: Clock + Wait>(&self, rt: &R, has_several: bool) -> Result<u64, Fault> {
        let mut pace = Counted {
            pace: Gathering::new(rt, has_several),
            turns: 0,
        };
        let flushed = self.run_flusher(rt, &mut pace);
        self.shut(rt);
        flushed?;
        // the last turn found nothing to flush
        Ok(pace.turns.saturating_sub(1))
    }

    fn close<R: Wait>(&self, rt: &R) {
        self.shut(rt);
    }

    fn fill<R: Wait>(&self, rt: &R, alloc: Global) -> Result<(), Fault> {
        let mut pass = self.acquire_pass(rt)?;
        let filled = fill_by(rt, alloc, self, &mut pass);
        self.release_pass(rt, pass)?;
        filled
    }
}

// Fills the log: each batch with as many transactions as it takes.
fn fill_by<D: Disk + Drop, N: StoreNaming, T: Invariants + Drop, S: StoredSteps + Drop, R: Wait>(
    rt: &R,
    alloc: Global,
    front: &Front<D, N, T, S>,
    pass: &mut Pass<N>,
) -> Result<(), Fault> {
    for index in 0..SLOTS * RECORDS {
        settle_once(rt, front, pass, put(alloc, index % MANY, 1)?)?;
        if index % RECORDS == RECORDS - 1 {
            front.flush_once(rt)?;
        }
    }
    Ok(())
}

// Settles a transaction.
fn settle_once<
    D: Disk + Drop,
    N: StoreNaming,
    T: Invariants + Drop,
    S: StoredSteps + Drop,
    R: Wait,
>(rt: &R, front: &Front<D, N, T, S>, pass: &mut Pass<N>, tx: Tx) -> Result<Settled, Fault> {
    let plan = front.plan(tx)?;
    front.atomically(rt, pass, &plan)
}

// Settles a plan again and again, until the time of the job from the start is over.
fn settle_until<
    D: Disk + Drop,
    N: StoreNaming,
    T: Invariants + Drop,
    S: StoredSteps + Drop,
    R: Clock + Wait,
>(
    rt: &R,
    front: &Front<D, N, T, S>,
    pass: &mut Pass<N>,
    plan: &Plan,
    job: Job,
    start: Instant,
) -> Result<Figures, Fault>
    requires does { Does job.act plan.now.tree }
    requires steps { FitsSteps (S.arities front.now.steps) plan.now.tree }
    requires variables { FitsVariables front.now.vars plan.now }
    requires names { FitsNames N.program.names plan.now.tree }
    requires signatures { FitsSignatures N.program.tests plan.now }
    ensures { IfOk result (λ had. had.work ≡ OnStore job.act) }
{
    let mut had = Figures::zero(Work::OnStore(job.act));
    for _ in rt.forever() {
        settle_some(rt, front, pass, plan, job, &mut had)?;
        if is_over(rt, start, job.time) {
            return Ok(had);
        }
    }
    unreachable!()
}

// Settles a plan as often as a job does until it waits, and waits.
fn settle_some<
    D: Disk + Drop,
    N: StoreNaming,
    T: Invariants + Drop,
    S: StoredSteps + Drop,
    R: Wait,
>(
    rt: &R,
    front: &Front<D, N, T, S>,
    pass: &mut Pass<N>,
    plan: &Plan,
    job: Job,
    had: &mut Figures,
) -> Result<(), Fault>
    requires steps { FitsSteps (S.arities front.now.steps) plan.now.tree }
    requires variables { FitsVariables front.now.vars plan.now }
    requires names { FitsNames N.program.names plan.now.tree }
    requires signatures { FitsSignatures N.program.tests plan.now }
    ensures { had.new.work ≡ had.old.work }
{
    let mut last = None;
    for _ in 0..job.act.stride() {
        let settled = front.atomically_with_room(rt, pass, plan)?;
        if is_done(&settled) {
            had.operations = had.operations.saturating_add(1);
        }
        last = number_of(&settled);
    }
    let Some(number) = last else {
        return Ok(());
    };
    if matches!(job.callers, Callers::Beside(_)) {
        return front.await_durable(rt, pass, number);
    }
    had.flushes = had.flushes.saturating_add(1);
    front.flush_with_room(rt)?;
    Ok(())
}

// Whether a transaction did what it was to do.
fn is_done(settled: &Settled) -> bool {
    matches!(settled, Settled::Committed { .. } | Settled::Seen { .. })
}

// The number of a transaction that committed.
fn number_of(settled: &Settled) -> Option<u64> {
    match settled {
        Settled::Committed { number, .. } => Some(*number),
        _ => None,
    }
}

/// Runs a job on a new store, until all that it committed is durable.
pub fn serve<F: SharedStore + Sync, R: Clock + Threads + Wait + Sync>(
    rt: &R,
    alloc: Global,
    store: &F,
    job: Job,
) -> Result<Figures, BenchError>
    ensures { IfOk result (λ had. had.work ≡ OnStore job.act) }
{
    store.prepare(rt, alloc)?;
    let start = now(rt)?;
    let mut had = match job.callers {
        Callers::Alone => store.work(rt, alloc, job, start)?,
        Callers::Beside(callers) => work_beside(rt, alloc, store, job, callers, start)?,
    };
    had.time = since(rt, start)?;
    Ok(had)
}

// Callers beside a flusher in a thread of its own, which ends once they have ended and all is durable. Its refusal comes before
// those that follow from it. With no thread for it nobody calls.
fn work_beside<F: SharedStore + Sync, R: Clock + Threads + Wait + Sync>(
    rt: &R,
    alloc: Global,
    store: &F,
    job: Job,
    callers: usize,
    start: Instant,
) -> Result<Figures, Fault>
    ensures { IfOk result (λ had. had.work ≡ OnStore job.act) }
{
    thread::scope(
        thread::scope_env(),
        rt,
        |scope| -> Result<Figures, Fault>
            ensures { IfOk result (λ had. had.work ≡ OnStore job.act) }
        {
            let Ok(flusher) = scope.spawn(move || store.flush(rt, callers > 1)) else {
                return Err(Fault::Memory);
            };
            let had = work_all(rt, alloc, store, job, callers, start);
            store.close(rt);
            let flushes = flusher.join(rt)?;
            Ok(Figures { flushes, ..had? })
        },
    )
}

// All callers, each in a thread of its own where one can be made, and else one after another.
fn work_all<F: SharedStore + Sync, R: Clock + Threads + Wait + Sync>(
    rt: &R,
    alloc: Global,
    store: &F,
    job: Job,
    callers: usize,
    start: Instant,
) -> Result<Figures, Fault>
    ensures { IfOk result (λ had. had.work ≡ OnStore job.act) }
{
    let all = map_indices(
        rt,
        alloc,
        callers,
        &|_| -> Result<Figures, Fault>
            ensures { IfOk result (λ had. had.work ≡ OnStore job.act) }
        { store.work(rt, alloc, job, start) },
    )?;
    let mut sum = Figures::zero(Work::OnStore(job.act));
    for had in all {
        sum = sum.with(had?);
    }
    Ok(sum)
}
