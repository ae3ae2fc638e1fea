// A store for the jobs, with what its closures mean.
ghost use Rattle.std.specs.Prelude.{◌≡◌, codes, length, IfOk};
ghost use Rattle.std.specs.List.{list_any};
ghost use Rattle.tmem_front.specs.Held.{front_found, spine_of, front_steps, front_table};
ghost use Rattle.tmem_builtins.specs.Invariants.{has_no_negative, is_negative};
ghost use Rattle.tmem_invariants.specs.Answers.{MayCall, HasMeaning};
ghost use Rattle.tmem_bench.specs.Accounts.{bench_bank, variables_in, variables_on};
ghost use Rattle.tmem_bench.specs.Works.{work_in, work_on};

use crate::error::BenchError;
use crate::figures::{Figures, Work};
use crate::jobs::{Act, Job, SLOTS, SOLVENT};
use crate::on_core::run_on_core;
use crate::service::{SharedStore, serve};
use std::alloc::{AllocGlobal, Global};
use std::marker::Brand;
use std::rt::Clock;
use std::sync::Wait;
use std::thread::Threads;
use tmem_builtins::stored_steps;
use tmem_disk::Disk;
use tmem_fault::Name;
use tmem_front::{OpenedFront, StoreNaming};
use tmem_invariants::Invariants;
use tmem_tables::{Invariant, Table, Test};
use tmem_tree::StoredSteps;

/// What is done with a store once it is open.
#[derive(Clone, Copy)]
pub enum StoreUse {
    /// Runs a job.
    Serve(Job),
    /// Fills the log.
    FillLog,
    /// Nothing.
    Open,
}

/// Where something is done with the invariants and the steps.
#[derive(Drop)]
pub enum On<D: Disk> {
    /// On a core alone.
    Core(Job),
    /// On the store of a device, which was formatted.
    Store(D, StoreUse),
}

impl<D: Disk> On<D> {
    // What the invariant is over.
    fn footprint(&self) -> &'static [u16]
        ensures { result.now ≡ variables_on self.now }
    {
        match self {
            On::Core(job) => job.act.footprint(),
            On::Store(_, StoreUse::Serve(job)) => job.act.footprint(),
            On::Store(_, StoreUse::FillLog | StoreUse::Open) => Act::Add.footprint(),
        }
    }
}

/// Makes the invariants and the steps for so many variables, and does it.
pub fn with_bank<D: Disk + Drop + Send, R: Clock + AllocGlobal + Threads + Wait + Sync>(
    rt: &R,
    vars: u16,
    on: On<D>,
) -> Result<Figures, BenchError>
    ensures { IfOk result (λ had. had.work ≡ work_on on) }
{
    let alloc = rt.alloc();
    let solvent = Box::new(
        alloc,
        |accounts: &[i64]| -> bool
            ensures { result ≡ has_no_negative accounts.now }
        { !has_negative(accounts) },
    )?;
    let solvent = invariant_over(alloc, on.footprint(), solvent)?;
    let table = Table::of(alloc, vec![in alloc; solvent]?, vars)?;
    let steps = stored_steps();
    match on {
        On::Core(job) => run_on_core(rt, alloc, vars, job, table, &steps),
        On::Store(disk, task) => open(rt, vars, disk, task, table, steps),
    }
}

// The invariant over these variables.
fn invariant_over(alloc: Global, variables: &[u16], solvent: Test) -> Result<Invariant, BenchError>
    requires callable { MayCall (Test.pre solvent) (length variables.now) }
    requires stated { HasMeaning (Test.post solvent) (length variables.now) }
    ensures name { IfOk result (λ invariant. invariant.name ≡ codes "solvent") }
    ensures footprint { IfOk result (λ invariant. invariant.footprint.items ≡ variables.now) }
    ensures test { IfOk result (λ invariant. invariant.test ≡ solvent) }
{
    let footprint = Vec::from_slice(alloc, variables)?;
    Ok(Invariant::new(Name::new(SOLVENT)?, footprint, solvent)?)
}

// Whether an account is below zero.
fn has_negative(accounts: &[i64]) -> bool
    ensures { result ≡ list_any is_negative accounts.now }
{
    accounts.iter().any(|account| *account < 0)
}

fn open<
    D: Disk + Drop + Send,
    T: Invariants + Drop + Send,
    S: StoredSteps + Drop + Send + Sync,
    R: Clock + AllocGlobal + Threads + Wait + Sync,
>(rt: &R, vars: u16, disk: D, task: StoreUse, table: T, steps: S) -> Result<Figures, BenchError>
    requires vars { T.vars table ≡ vars }
    requires names { T.names table ≡ (bench_bank (variables_in task)).names }
    requires stated { T.is_stated table (bench_bank (variables_in task)).tests }
    requires steps { S.is_stated steps (bench_bank (variables_in task)).steps }
    ensures { IfOk result (λ had. had.work ≡ work_in task) }
{
    let alloc = rt.alloc();
    match OpenedFront::open(alloc, disk, vars, SLOTS, table, steps) {
        Ok(opened) => with_front::<Brand, D, T, S, R>(rt, alloc, opened, task),
        Err((fault, _disk)) => Err(BenchError::Refused(fault)),
    }
}

fn with_front<
    N: StoreNaming + Send + Sync,
    D: Disk + Drop + Send,
    T: Invariants + Drop + Send,
    S: StoredSteps + Drop + Send + Sync,
    R: Clock + Threads + Wait + Sync,
>(
    rt: &R,
    alloc: Global,
    opened: OpenedFront<D, T, S>,
    task: StoreUse,
) -> Result<Figures, BenchError>
    requires spine { spine_of opened ≡ N.name }
    requires opening { front_found opened ≡ N.opening }
    requires program { N.program ≡ bench_bank (variables_in task) }
    requires names { T.names (front_table opened) ≡ N.program.names }
    requires stated { T.is_stated (front_table opened) N.program.tests }
    requires steps { S.is_stated (front_steps opened) N.program.steps }
    ensures { IfOk result (λ had. had.work ≡ work_in task) }
{
    let front = opened.named::<N>();
    match task {
        StoreUse::Serve(job) => serve(rt, alloc, &front, job),
        StoreUse::FillLog => {
            front.fill(rt, alloc)?;
            Ok(Figures::zero(Work::FillLog))
        }
        StoreUse::Open => Ok(Figures::zero(Work::Open)),
    }
}
