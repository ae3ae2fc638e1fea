//! An evaluation of more turns than a plan may have nodes, behind two conflicts. The invariant that it tests is over variables.
ghost use Rattle.std.specs.Prelude.{◌≡◌, true, length};
ghost use Rattle.tmem_store_tests.specs.Examples.{over_two};

use super::moves::Answer::{Committed, Done};
use super::moves::Move::{AwaitHeld, Commit, HoldSteps, Release, TryCommit};
use super::moves::Task;
use super::no_closures::{AddsAndNeeds, always};
use super::scenes::Line::{Before, First, Last, Scene};
use super::scenes::{Line, Wrong, device_of, open, play_named, stage_disk};
use super::signals::Signals;
use super::stage::Stage;
use std::alloc::Global;
use std::marker::Brand;
use std::process::Abort;
use std::rt::Clock;
use std::sync::Wait;
use std::test::Fail;
use std::thread::Threads;
use std::time::Duration;
use tmem_fault::Fault;
use tmem_invariants::Invariants;
use tmem_tables::{Invariant, Table};

const VARS: u16 = 1024;

/// The third time it is evaluated under the core's lock, from its start to its end.
static SCENE: &[Line<'static>] = &[
    Scene("a transaction of more turns than nodes that met two conflicts is evaluated alone"),
    Before(HoldSteps(2), Done),
    First(Commit(Task::ReadAndRegister), Committed(2)),
    Last(AwaitHeld(1), Done),
    Last(TryCommit(Task::Write(0, 5)), Committed(0)),
    Last(Release, Done),
    Last(AwaitHeld(2), Done),
    Last(TryCommit(Task::Write(0, 7)), Committed(1)),
    Last(Release, Done),
];

// The scene in a new store over a table.
fn play_on_stage<T: Invariants + Drop + Send, R: Clock + Threads + Wait + Sync>(
    stage: &Stage<R>,
    table: T,
) -> Result<Option<Wrong>, Fault>
    requires vars { T.vars table ≡ VARS }
    requires names { T.names table ≡ over_two.names }
    requires tests { T.is_stated table over_two.tests }
{
    let mut device = device_of(stage.lines);
    device.vars = VARS;
    let disk = stage_disk(stage, device)?;
    let steps = AddsAndNeeds {
        signals: stage.signals,
    };
    match open(stage.alloc, disk, device, table, steps) {
        Ok(opened) => Ok(play_named::<_, Brand, _, _, _>(stage, opened)),
        Err(fault) => Err(fault),
    }
}

// The same on a stage of its own.
fn play_staged<T: Invariants + Drop + Send, R: Abort + Clock + Threads + Wait + Sync>(
    rt: &R,
    alloc: Global,
    table: T,
) -> Result<(), Fault>
    requires vars { T.vars table ≡ VARS }
    requires names { T.names table ≡ over_two.names }
    requires tests { T.is_stated table over_two.tests }
{
    let signals = Signals::new();
    let stage = Stage {
        rt,
        alloc,
        signals: &signals,
        lines: SCENE,
        skip: Duration::ZERO,
        readings: u64::MAX,
        stands: false,
    };
    let wrong = play_on_stage(&stage, table)?;
    assert!(rt; wrong.is_none(), "{wrong:?}");
    Ok(())
}

// at: 512 nodes, 1024 variables
#[test]
fn an_evaluation_alone_takes_more_turns_than_a_plan_has_nodes(rt: HostRuntime) -> Result<(), Fail> {
    let alloc = rt.alloc();
    let footprint = vec![in alloc; 1, 2]?;
    let test = Box::new(
        alloc,
        |values: &[i64]| -> bool
            requires { length values.now ≡ 2 }
            ensures { result ≡ true }
        { values.len() == 2 },
    )?;
    let invariant = Invariant::new(always(), footprint, test)?;
    let table = Table::of(alloc, vec![in alloc; invariant]?, VARS)?;
    play_staged(&rt, alloc, table)?;
    Ok(())
}
