// What the threads that count up do with the store that they share.
ghost use Rattle.std.specs.Prelude.{◌≡◌, ◌≤◌, ℕ, IfOk, IfErr};
ghost use Rattle.tmem_fault.specs.declared.fault.Fault.TheVariants as fault;
ghost use Rattle.tmem_seats.specs.Flushing.{IsFlusherRefusal};
ghost use Rattle.tmem_tree.specs.Plans.{FitsSteps, FitsVariables, FitsNames, FitsSignatures};
ghost use Rattle.tmem_bench.specs.Counting.{AddsDurable, is_commit, once};

use std::alloc::Global;
use std::rt::Clock;
use std::sync::Wait;
use tmem_builtins::add_to;
use tmem_core::Settled;
use tmem_disk::Disk;
use tmem_fault::Fault;
use tmem_front::{Front, Gathering, Pass, StoreNaming};
use tmem_invariants::Invariants;
use tmem_tree::{Plan, StoredSteps};

/// What threads that count up do with a store. The functions that start them know no more of it.
pub(crate) trait CountingStore {
    /// One who was to add so often may be answered that so many were committed.
    ghost is_answer: { Self → ℕ → ℕ → Type 0 };

    /// No more than were to be.
    ghost most: { (store : Self) (turns committed : ℕ) → is_answer store turns committed → committed ≤ turns };

    /// Adds 1 to variable 0 so often, each time by a transaction that is awaited until it is durable. Answers how many of them
    /// were committed.
    fn add<R: Wait>(&self, rt: &R, alloc: Global, turns: u16) -> Result<u64, Fault>
        ensures { IfOk result (is_answer self.now turns) };

    /// Makes durable what is committed by one caller or by several, until the store is shut. It is shut at the end, also after a
    /// fault.
    fn flush<R: Wait + Clock>(&self, rt: &R, has_several: bool) -> Result<(), Fault>
        ensures { IfErr result IsFlusherRefusal };

    /// Nothing is settled any more.
    fn close<R: Wait>(&self, rt: &R);
}

impl<D: Disk + Drop, N: StoreNaming, T: Invariants + Drop, S: StoredSteps + Drop> CountingStore
    for Front<D, N, T, S> {
    ghost is_answer = { λ front turns committed. committed ≤ turns };

    ghost most = { λ front turns committed most. most };

    fn add<R: Wait>(&self, rt: &R, alloc: Global, turns: u16) -> Result<u64, Fault> {
        let plan = self.plan(add_to(alloc, 0, 1)?)?;
        let mut pass = self.acquire_pass(rt)?;
        let committed = add_turns(rt, self, &mut pass, &plan, turns);
        self.release_pass(rt, pass)?;
        committed
    }

    fn flush<R: Wait + Clock>(&self, rt: &R, has_several: bool) -> Result<(), Fault> {
        let flushed = self.run_flusher(rt, &mut Gathering::new(rt, has_several));
        self.shut(rt);
        flushed
    }

    fn close<R: Wait>(&self, rt: &R) {
        self.shut(rt);
    }
}

// Adds so often by one pass.
fn add_turns<R: Wait, D: Disk + Drop, N: StoreNaming, T: Invariants + Drop, S: StoredSteps + Drop>(
    rt: &R,
    front: &Front<D, N, T, S>,
    pass: &mut Pass<N>,
    plan: &Plan,
    turns: u16,
) -> Result<u64, Fault>
    requires steps { FitsSteps (S.arities front.now.steps) plan.now.tree }
    requires variables { FitsVariables front.now.vars plan.now }
    requires names { FitsNames N.program.names plan.now.tree }
    requires signatures { FitsSignatures N.program.tests plan.now }
    ensures added { IfOk result (λ committed. ∥ AddsDurable N.name.start pass.old committed pass.new ∥₁) }
    ensures most { IfOk result (λ committed. committed ≤ turns) }
{
    let mut committed = 0;
    for _turn in 0..turns {
        if add_once(rt, front, pass, plan)? {
            committed += 1;
        }
    }
    Ok(committed)
}

// Adds once, and awaits that. Answers whether it was committed.
fn add_once<R: Wait, D: Disk + Drop, N: StoreNaming, T: Invariants + Drop, S: StoredSteps + Drop>(
    rt: &R,
    front: &Front<D, N, T, S>,
    pass: &mut Pass<N>,
    plan: &Plan,
) -> Result<bool, Fault>
    requires steps { FitsSteps (S.arities front.now.steps) plan.now.tree }
    requires variables { FitsVariables front.now.vars plan.now }
    requires names { FitsNames N.program.names plan.now.tree }
    requires signatures { FitsSignatures N.program.tests plan.now }
    ensures { IfOk result (λ is_committed. ∥ AddsDurable N.name.start pass.old (once is_committed) pass.new ∥₁) }
{
    let settled = front.commit_durable(rt, pass, plan)?;
    Ok(is_commit(&settled))
}

// Whether a transaction was committed.
fn is_commit(settled: &Settled) -> bool
    ensures { result ≡ is_commit settled.now }
{
    matches!(settled, Settled::Committed { .. })
}
