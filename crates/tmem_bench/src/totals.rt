// A store for the threads that count up, from its opening to their totals.
ghost use Rattle.std.specs.Prelude.{◌≡◌, ◌<◌, ◌≤◌, ◌∷◌, [], length, IfOk};
ghost use Rattle.tmem_builtins.specs.Builtins.{builtin_steps, builtin_names, builtin_tests};
ghost use Rattle.tmem_front.specs.Held.{front_found, spine_of, front_steps, front_table};
ghost use Rattle.tmem_seats.specs.Histories.{IsPossibleValue};
ghost use Rattle.tmem_effect.specs.State.{State};
ghost use Rattle.tmem_spine.specs.History.{count};
ghost use Rattle.tmem_bench.specs.Counting.{AreTotals, counting};
ghost use Rattle.tmem_bench.specs.declared.totals.TheConstants.{COUNTING_VARS};

use crate::workers::{CountingWork, work_and_flush};
use std::alloc::Global;
use std::marker::Brand;
use std::rt::Clock;
use std::sync::Wait;
use std::thread::Threads;
use tmem_builtins::stored_steps;
use tmem_disk::Disk;
use tmem_fault::Fault;
use tmem_front::{Front, OpenedFront, Pass, StoreNaming};
use tmem_invariants::Invariants;
use tmem_tables::Table;
use tmem_tree::StoredSteps;

/// How many variables the store has in which threads count up.
pub const COUNTING_VARS: u16 = 4;

/// How many batches its log takes between two checkpoints.
pub const COUNTING_SLOTS: u16 = 4;

/// What the threads that counted up did.
#[derive(Clone, Copy, Debug, PartialEq, Eq)]
pub struct Totals {
    /// How many transactions the workers were answered to have committed.
    pub committed: u64,
    /// The value of variable 0 after the last of them.
    pub value: i64,
    /// How many transactions are durable.
    pub durable: u64,
}

/// Opens the store of a device, lets workers count up there beside a flusher, and answers their totals once all threads have
/// ended.
pub fn count_up<R: Threads + Wait + Clock + Sync, D: Disk + Drop + Send>(
    rt: &R,
    alloc: Global,
    disk: D,
    work: CountingWork,
) -> Result<Totals, Fault>
    ensures { IfOk result (λ totals. (opening : State) × AreTotals opening work totals) }
{
    let table = Table::of(alloc, Vec::new(alloc), COUNTING_VARS)?;
    open_and_count(rt, alloc, disk, table, stored_steps(), work)
}

// The same with these steps.
fn open_and_count<
    R: Threads + Wait + Clock + Sync,
    D: Disk + Drop + Send,
    T: Invariants + Drop + Send,
    S: StoredSteps + Drop + Send + Sync,
>(rt: &R, alloc: Global, disk: D, table: T, steps: S, work: CountingWork) -> Result<Totals, Fault>
    requires vars { T.vars table ≡ COUNTING_VARS }
    requires names { T.names table ≡ counting.names }
    requires tests { T.is_stated table counting.tests }
    requires steps { S.is_stated steps counting.steps }
    ensures { IfOk result (λ totals. (opening : State) × AreTotals opening work totals) }
{
    match OpenedFront::open(alloc, disk, COUNTING_VARS, COUNTING_SLOTS, table, steps) {
        Ok(opened) => count_opened::<Brand, D, T, S, R>(rt, alloc, opened, work),
        Err((fault, _disk)) => Err(fault),
    }
}

// The same in a store that was opened.
fn count_opened<
    N: StoreNaming + Send + Sync,
    D: Disk + Drop + Send,
    T: Invariants + Drop + Send,
    S: StoredSteps + Drop + Send + Sync,
    R: Threads + Wait + Clock + Sync,
>(rt: &R, alloc: Global, opened: OpenedFront<D, T, S>, work: CountingWork) -> Result<Totals, Fault>
    requires spine { spine_of opened ≡ N.name }
    requires opening { front_found opened ≡ N.opening }
    requires program { N.program ≡ counting }
    requires values { length (front_found opened).values ≡ COUNTING_VARS }
    requires names { T.names (front_table opened) ≡ counting.names }
    requires stated { T.is_stated (front_table opened) counting.tests }
    requires steps { S.is_stated (front_steps opened) counting.steps }
    ensures { IfOk result (AreTotals (front_found opened) work) }
{
    let front = opened.named::<N>();
    let mut pass = front.pass(rt)?;
    let committed = work_and_flush(rt, alloc, &front, work)?;
    Ok(last_look(rt, &front, &mut pass, committed))
}

// The totals, where so many were answered to have committed.
fn last_look<N: StoreNaming, D: Disk + Drop, T: Invariants + Drop, S: StoredSteps + Drop, R: Wait>(
    rt: &R,
    front: &Front<D, N, T, S>,
    pass: &mut Pass<N>,
    committed: u64,
) -> Totals
    requires { 0 < length N.opening.values }
    ensures committed { result.committed ≡ committed }
    ensures value { IsPossibleValue N.program N.opening 0 result.value }
    ensures durable { result.durable ≡ count N.name.start pass.new.seen }
    ensures least { count N.name.start pass.old.seen ≤ result.durable }
{
    Totals {
        committed,
        value: front.peek(rt, 0),
        durable: front.look(pass),
    }
}
