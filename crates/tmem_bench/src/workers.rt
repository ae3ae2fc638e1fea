// The threads that count up.
ghost use Rattle.std.specs.Prelude.{◌≡◌, ◌<◌, ◌^◌, Err, IsOk, IfOk, IfErr, All, Contains};
ghost use Rattle.tmem_bench.specs.Counting.{AreCounted, committed_together};

use crate::counting::CountingStore;
use std::alloc::Global;
use std::rt::Clock;
use std::sync::Wait;
use std::thread::{self, Threads, map_indices};
use tmem_fault::Fault;

/// How many workers there are, and how often each of them adds.
#[derive(Clone, Copy, Debug, PartialEq, Eq)]
pub struct CountingWork {
    pub workers: u16,
    pub turns: u16,
}

/// Lets the workers add beside a flusher, each in a thread of its own where one can be made, and else one after another.
/// Answers how many transactions they committed once all have ended. The flusher's refusal comes before those that follow
/// from it. With no thread for the flusher nobody works.
pub(crate) fn work_and_flush<F: CountingStore + Sync, R: Threads + Wait + Clock + Sync>(
    rt: &R,
    alloc: Global,
    store: &F,
    work: CountingWork,
) -> Result<u64, Fault>
    ensures { IfOk result (AreCounted (F.is_answer store.now work.turns) work.workers) }
{
    thread::scope(
        thread::scope_env(),
        rt,
        |scope| -> Result<u64, Fault>
            ensures { IfOk result (AreCounted (F.is_answer store.entry.now work.turns) work.workers) }
        {
            let has_several = work.workers > 1;
            let Ok(flusher) = scope.spawn(move || store.flush(rt, has_several)) else {
                return Err(Fault::Memory);
            };
            let committed = count_all(rt, alloc, store, work);
            store.close(rt);
            flusher.join(rt)?;
            committed
        },
    )
}

fn count_all<F: CountingStore + Sync, R: Threads + Wait + Sync>(
    rt: &R,
    alloc: Global,
    store: &F,
    work: CountingWork,
) -> Result<u64, Fault>
    ensures { IfOk result (AreCounted (F.is_answer store.now work.turns) work.workers) }
{
    let turns = work.turns;
    let answers = map_indices(
        rt,
        alloc,
        usize::from(work.workers),
        &|_| -> Result<u64, Fault>
            ensures { IfOk result (F.is_answer store.entry.now turns) }
        { store.add(rt, alloc, turns) },
    )?;
    sum_of(answers.as_slice())
}

// The sum of what the workers answered, or the first refusal among them.
fn sum_of(answers: &[Result<u64, Fault>]) -> Result<u64, Fault>
    requires { committed_together answers.now < 2 ^ 64 }
    ensures sum { IfOk result (λ committed. committed ≡ committed_together answers.now) }
    ensures all { IfOk result (λ committed. All (λ answer. IsOk answer) answers.now) }
    ensures refused { IfErr result (λ fault. Contains answers.now (Err fault)) }
{
    let mut committed = 0;
    for answer in answers {
        match answer {
            Ok(number) => committed += *number,
            Err(fault) => return Err(*fault),
        }
    }
    Ok(committed)
}
