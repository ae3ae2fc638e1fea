//! A second release of a program goes on with the store of the first one: it has steps that the first one did not have.
ghost use Rattle.std.specs.Prelude.{◌≡◌};

use super::worlds::{Played, commit_to, committed, opened, step_to, write_to};
use std::alloc::Global;
use std::process::Abort;
use std::test::Fail;
use tmem_builtins::stored_steps;
use tmem_disk::SimDisk;
use tmem_fault::{Cause, Fault};
use tmem_invariants::Invariants;
use tmem_tables::Table;
use tmem_tree::{Steps, StoredSteps, Tx};
use tmem_world::{Event, Reply, World};

/// Writes to variable 3 what the first step makes of two sevens.
fn by_the_first_step(alloc: Global) -> Result<Tx, Fault> {
    let args = vec![in alloc; 0, 0]?;
    Ok(Tx::Seq(vec![in alloc;
        Tx::Put { reg: 0, number: 7 },
        Tx::Step {
            index: 0,
            args,
            out: 0
        },
        Tx::Write { var: 3, reg: 0 },
    ]?))
}

/// Plays the first release on a new device, which it hands back: it writes, and makes that durable.
fn begin_on<T: Invariants + Drop, S: StoredSteps + Drop>(
    rt: &impl Abort,
    alloc: Global,
    table: T,
    steps: S,
) -> Result<SimDisk, Fault> {
    match opened(alloc, table, steps) {
        Ok(mut world) => {
            play_first(rt, alloc, &mut world)?;
            Ok(world.into_disk())
        }
        Err(fault) => Err(fault),
    }
}

/// Plays it in this world.
fn play_first<W: Played>(rt: &impl Abort, alloc: Global, world: &mut W) -> Result<(), Fault> {
    write_to(rt, alloc, world, (0, 5), 0)?;
    let bad = Event::Begin {
        slot: 0,
        tx: by_the_first_step(alloc)?,
    };
    step_to(rt, world, bad, Reply::Fault(Fault::BadPlan(Cause::BadStep)));
    step_to(rt, world, Event::Flush, Reply::Durable(1));
    Ok(())
}

/// Plays the second release on the device that the first one left.
fn reopen_and_play<T: Invariants + Drop, S: StoredSteps + Drop>(
    rt: &impl Abort,
    alloc: Global,
    disk: SimDisk,
    table: T,
    steps: S,
) -> Result<(), Fault>
    requires { T.vars table ≡ 4 }
{
    match World::open(alloc, disk, 4, 4, table, steps) {
        Ok(mut world) => play_later(rt, alloc, &mut world),
        Err((fault, _disk)) => Err(fault),
    }
}

/// Plays it in a world that was opened.
fn play_later<W: Played>(rt: &impl Abort, alloc: Global, world: &mut W) -> Result<(), Fault> {
    commit_to(rt, world, by_the_first_step(alloc)?, committed(1, 14));
    Ok(())
}

/// The first release has no step.
fn begin(rt: &impl Abort, alloc: Global) -> Result<SimDisk, Fault> {
    let steps = Steps::of(Vec::new(alloc))?;
    begin_on(rt, alloc, Table::of(alloc, Vec::new(alloc), 4)?, steps)
}

#[test]
fn a_store_outlives_the_steps_of_its_program(rt: HostRuntime) -> Result<(), Fail> {
    let alloc = rt.alloc();
    let disk = begin(&rt, alloc)?;
    let table = Table::of(alloc, Vec::new(alloc), 4)?;
    reopen_and_play(&rt, alloc, disk, table, stored_steps())?;
    Ok(())
}
