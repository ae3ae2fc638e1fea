//! Opens the front.
ghost use Rattle.std.specs.Prelude.{◌≡◌, length};
ghost use Rattle.tmem_builtins.specs.Invariants.{is_not_negative};
ghost use Rattle.tmem_invariants.specs.Answers.{MayCall, Gives};
ghost use Rattle.tmem_front.specs.Held.{front_found, spine_of, front_steps, front_table};
ghost use Rattle.tmem_caller.specs.Refusals.{refusals_program};

use crate::refusals::fronts::settle_all;
use crate::refusals::printing::{say_fault, say_line};
use crate::refusals::store::{SLOTS, VARS, content_of};
use std::alloc::Global;
use std::marker::Brand;
use std::rt::Clock;
use std::sync::Wait;
use tmem_builtins::{BuiltinSteps, names, nonneg, stored_steps};
use tmem_disk::SimDisk;
use tmem_fault::Fault;
use tmem_front::{OpenedFront, StoreNaming};
use tmem_invariants::Invariants;
use tmem_tables::{Invariant, Table, Test};
use tmem_tree::StoredSteps;

/// Makes the test of the invariant, and opens the device with it. Where that is refused, it says so, and whether the device is as
/// it was, and hands it back.
pub(crate) fn open_once<R: Clock + Print + Wait>(
    rt: &R,
    alloc: Global,
    mut disk: SimDisk,
) -> Result<Option<SimDisk>, Fault> {
    let before = content_of(alloc, &mut disk)?;
    let test = Box::new(
        alloc,
        |values: &[i64]| -> bool
            requires { length values.now ≡ 1 }
            ensures { result ≡ is_not_negative values.now }
        { nonneg(values) },
    )?;
    open_with(rt, alloc, disk, &before, test)
}

// Prints why the device was not opened, and whether it is as it was.
fn say_refused<R: Print>(
    rt: &R,
    alloc: Global,
    fault: Fault,
    disk: &mut SimDisk,
    before: &[u8],
) -> Result<(), Fault> {
    say_fault(rt, fault);
    let after = content_of(alloc, disk)?;
    say_line(
        rt,
        if before == after.as_slice() {
            "the device is as it was"
        } else {
            "the device was changed"
        },
    );
    Ok(())
}

// Makes the invariant of this test and its table, and opens the device with them.
fn open_with<R: Clock + Print + Wait>(
    rt: &R,
    alloc: Global,
    disk: SimDisk,
    before: &[u8],
    test: Test,
) -> Result<Option<SimDisk>, Fault>
    requires callable { MayCall (Test.pre test) 1 }
    requires stated { Gives (Test.post test) 1 is_not_negative }
{
    let invariant = Invariant::new(names()[0], vec![in alloc; 0]?, test)?;
    let table = Table::of(alloc, vec![in alloc; invariant]?, VARS)?;
    say_line(rt, "closures");
    open(rt, alloc, disk, before, table, stored_steps())
}

// Opens a device that has these bytes, and settles transactions there. Hands it back where that is refused.
fn open<T: Invariants + Drop, R: Clock + Print + Wait>(
    rt: &R,
    alloc: Global,
    disk: SimDisk,
    before: &[u8],
    table: T,
    steps: BuiltinSteps,
) -> Result<Option<SimDisk>, Fault>
    requires vars { T.vars table ≡ 4 }
    requires names { T.names table ≡ refusals_program.names }
    requires tests { T.is_stated table refusals_program.tests }
    requires steps { ⟦<BuiltinSteps as StoredSteps>⟧.is_stated steps refusals_program.steps }
{
    match OpenedFront::open(alloc, disk, VARS, SLOTS, table, steps) {
        Ok(opened) => {
            with_front::<Brand, T, R>(rt, alloc, opened)?;
            Ok(None)
        }
        Err((fault, mut disk)) => {
            say_refused(rt, alloc, fault, &mut disk, before)?;
            Ok(Some(disk))
        }
    }
}

// Gives the store its name in the types, and settles transactions there.
fn with_front<N: StoreNaming, T: Invariants + Drop, R: Clock + Print + Wait>(
    rt: &R,
    alloc: Global,
    opened: OpenedFront<SimDisk, T, BuiltinSteps>,
) -> Result<(), Fault>
    requires spine { spine_of opened ≡ N.name }
    requires opening { front_found opened ≡ N.opening }
    requires vars { length N.opening.values ≡ 4 }
    requires program { N.program ≡ refusals_program }
    requires names { T.names (front_table opened) ≡ refusals_program.names }
    requires stated { T.is_stated (front_table opened) refusals_program.tests }
    requires steps { ⟦<BuiltinSteps as StoredSteps>⟧.is_stated (front_steps opened) refusals_program.steps }
{
    let front = opened.named::<N>();
    settle_all(rt, alloc, &front)
}
