// The core alone: no device, and no other thread.
ghost use Rattle.std.specs.Prelude.{◌≡◌, ◌-◌, [], length, IfOk};
ghost use Rattle.tmem_core.specs.Held.{core_state};
ghost use Rattle.tmem_bench.specs.Accounts.{bench_bank, variables_of};
ghost use Rattle.tmem_bench.specs.Transactions.{Does};
ghost use Rattle.tmem_bench.specs.declared.figures.Work.TheVariants.{OnCore};
ghost use Rattle.tmem_tree.specs.Plans.{FitsSteps, FitsVariables, FitsNames};

use crate::error::{BenchError, now, since};
use crate::figures::{Figures, Work};
use crate::jobs::{DEPOSIT, Job, SOLVENT};
use crate::service::is_over;
use std::alloc::Global;
use std::rt::Clock;
use tmem_core::Core;
use tmem_fault::{Fault, Name};
use tmem_invariants::Invariants;
use tmem_state::{NameSet, State};
use tmem_tentative::{Cursor, Progress};
use tmem_tree::{MAX_TURNS, Plan, StoredSteps};

// After so many transactions the core learns that they are durable, and the clock is read.
const ROUND: u64 = 64;

/// What the transactions of a job on a core come to. Every variable has something at the start, and the invariant is registered.
pub fn run_on_core<R: Clock, T: Invariants + Drop, S: StoredSteps>(
    rt: &R,
    alloc: Global,
    vars: u16,
    job: Job,
    table: T,
    steps: &S,
) -> Result<Figures, BenchError>
    requires vars { T.vars table ≡ vars }
    requires names { T.names table ≡ (bench_bank (variables_of job.act)).names }
    requires stated { T.is_stated table (bench_bank (variables_of job.act)).tests }
    ensures { IfOk result (λ had. had.work ≡ OnCore job.act) }
{
    let made = Core::new(alloc, &state_over(alloc, vars)?, table);
    match made {
        Ok(mut core) => plan_on(rt, alloc, vars, job, &mut core, steps),
        Err((fault, _table)) => Err(BenchError::Refused(fault)),
    }
}

// Makes the plan.
fn plan_on<R: Clock, T: Invariants + Drop, S: StoredSteps>(
    rt: &R,
    alloc: Global,
    vars: u16,
    job: Job,
    core: &mut Core<T>,
    steps: &S,
) -> Result<Figures, BenchError>
    requires { length (core_state core.old).values ≡ vars }
    ensures { IfOk result (λ had. had.work ≡ OnCore job.act) }
{
    let plan = Plan::new(job.act.transaction(alloc)?, steps, vars, &[])?;
    settle_on(rt, core, &mut Cursor::idle(alloc), &plan, steps, vars, job)
}

// Settles the plan of a job over so many variables, for as long as the job goes on. What the core committed by then is counted.
fn settle_on<R: Clock, T: Invariants + Drop, S: StoredSteps>(
    rt: &R,
    core: &mut Core<T>,
    cursor: &mut Cursor,
    plan: &Plan,
    steps: &S,
    vars: u16,
    job: Job,
) -> Result<Figures, BenchError>
    requires does { Does job.act plan.now.tree }
    requires sized { length (core_state core.old).values ≡ vars }
    requires steps { FitsSteps (S.arities steps.now) plan.now.tree }
    requires variables { FitsVariables vars plan.now }
    requires names { FitsNames [] plan.now.tree }
    ensures work { IfOk result (λ had. had.work ≡ OnCore job.act) }
    ensures counted { IfOk result (λ had. had.operations ≡ (core_state core.new).count - (core_state core.old).count) }
{
    let begun = core.count();
    let start = now(rt)?;
    for _ in 0..u64::MAX {
        settle_round(core, cursor, plan, steps, vars)?;
        if is_over(rt, start, job.time) {
            break;
        }
    }
    Ok(Figures {
        work: Work::OnCore(job.act),
        operations: core.count().saturating_sub(begun),
        flushes: 0,
        time: since(rt, start)?,
    })
}

// The state of a core whose variables all have something, with the invariant registered.
fn state_over(alloc: Global, vars: u16) -> Result<State, Fault>
    ensures sized { IfOk result (λ state. length state.values ≡ vars) }
    ensures registered { IfOk result (λ state. length state.names ≡ 1) }
{
    let mut names = NameSet::new(alloc)?;
    names.push(&Name::new(SOLVENT)?);
    Ok(State::of(0, names, vec![in alloc; DEPOSIT; vars as usize]?))
}

// Settles it a number of times, and tells the core that all of that is durable.
fn settle_round<T: Invariants + Drop, S: StoredSteps>(
    core: &mut Core<T>,
    cursor: &mut Cursor,
    plan: &Plan,
    steps: &S,
    vars: u16,
) -> Result<(), Fault>
    requires sized { length (core_state core.old).values ≡ vars }
    requires steps { FitsSteps (S.arities steps.now) plan.now.tree }
    requires variables { FitsVariables vars plan.now }
    requires names { FitsNames [] plan.now.tree }
    ensures { length (core_state core.new).values ≡ vars }
{
    for _ in 0..ROUND {
        settle(core, cursor, plan, steps, vars)?;
    }
    core.learn_durable(core.count());
    Ok(())
}

// Evaluates it, and settles it.
fn settle<T: Invariants + Drop, S: StoredSteps>(
    core: &mut Core<T>,
    cursor: &mut Cursor,
    plan: &Plan,
    steps: &S,
    vars: u16,
) -> Result<(), Fault>
    requires sized { length (core_state core.old).values ≡ vars }
    requires steps { FitsSteps (S.arities steps.now) plan.now.tree }
    requires variables { FitsVariables vars plan.now }
    requires names { FitsNames [] plan.now.tree }
    ensures { length (core_state core.new).values ≡ vars }
{
    cursor.restart(plan)?;
    for _ in 0..=MAX_TURNS {
        match cursor.advance(plan, steps)? {
            Progress::Need(var) => cursor.give(var, core.peek(var)),
            // it checks nothing
            Progress::Probe => unreachable!(),
            Progress::Ended => {
                core.decide(cursor.attempt())?;
                return Ok(());
            }
        }
    }
    Ok(())
}
