//! Makes the invariants that a world is opened with, whose closures count how often they are called.
ghost use Rattle.std.specs.Prelude.{◌≡◌, false, length};
ghost use Rattle.tmem_builtins.specs.Invariants.{is_not_negative, add_to_hundred, are_ordered};
ghost use Rattle.tmem_invariants.specs.Answers.{MayCall, HasMeaning};
ghost use Rattle.std.specs.Prelude.{IfOk};

use crate::Mode;
use crate::calls::{CallCounts, CountedSteps, Three};
use crate::evaluating::evaluate_twice;
use crate::failure::PlayFailure;
use crate::row::{Handed, Numbers, RowJob, RowPart, RowTask};
use crate::session::play_session;
use std::alloc::Global;
use std::io::Write;
use tmem_builtins::{nonneg, ordered, sum, table_of};
use tmem_disk::SimDisk;
use tmem_fault::{Fault, Name};
use tmem_tables::{Invariant, Table, Test};

/// Does a task.
pub(crate) fn do_task<W: Write>(
    alloc: Global,
    mode: Mode,
    disk: &mut SimDisk,
    task: RowTask,
    calls: &CallCounts,
    out: &mut W,
) -> Result<(), PlayFailure> {
    let RowTask {
        handed,
        numbers,
        job,
    } = task;
    match job {
        RowJob::Session(mut parts) => match handed {
            Handed::None => do_with_none(alloc, mode, disk, numbers, &mut parts, calls, out),
            Handed::Builtin => do_with_builtins(alloc, mode, disk, numbers, &mut parts, calls, out),
            Handed::Broken => do_with_broken(alloc, mode, disk, numbers, &mut parts, calls, out),
        },
        RowJob::Evaluate(values, tx) => {
            let steps = CountedSteps { counts: calls };
            evaluate_twice(alloc, numbers.vars, &values, tx, &steps, calls, out)
        }
    }
}

// With no invariants.
fn do_with_none<W: Write>(
    alloc: Global,
    mode: Mode,
    disk: &mut SimDisk,
    numbers: Numbers,
    parts: &mut [RowPart],
    calls: &CallCounts,
    out: &mut W,
) -> Result<(), PlayFailure> {
    let table = Table::of(alloc, Vec::new(alloc), numbers.vars)?;
    play_session(alloc, mode, disk, numbers, parts, table, calls, out)
}

// With the invariants of the program.
fn do_with_builtins<W: Write>(
    alloc: Global,
    mode: Mode,
    disk: &mut SimDisk,
    numbers: Numbers,
    parts: &mut [RowPart],
    calls: &CallCounts,
    out: &mut W,
) -> Result<(), PlayFailure> {
    let Three {
        first,
        second,
        third,
    } = Three::of(calls)?;
    let at_least_zero = Box::new(
        alloc,
        move |values: &[i64]| -> bool
            requires { length values.now ≡ 1 }
            ensures { result ≡ is_not_negative values.now }
        {
            first.add_test();
            nonneg(values)
        },
    )?;
    let a_hundred = Box::new(
        alloc,
        move |values: &[i64]| -> bool
            requires { length values.now ≡ 2 }
            ensures { result ≡ add_to_hundred values.now }
        {
            second.add_test();
            sum(values)
        },
    )?;
    let in_order = Box::new(
        alloc,
        move |values: &[i64]| -> bool
            requires { length values.now ≡ 2 }
            ensures { result ≡ are_ordered values.now }
        {
            third.add_test();
            ordered(values)
        },
    )?;
    let table = table_of(alloc, numbers.vars, at_least_zero, a_hundred, in_order)?;
    play_session(alloc, mode, disk, numbers, parts, table, calls, out)
}

// With one invariant that is always false.
fn do_with_broken<W: Write>(
    alloc: Global,
    mode: Mode,
    disk: &mut SimDisk,
    numbers: Numbers,
    parts: &mut [RowPart],
    calls: &CallCounts,
    out: &mut W,
) -> Result<(), PlayFailure> {
    let never = Box::new(
        alloc,
        |_values: &[i64]| -> bool
            ensures { result ≡ false }
        { false },
    )?;
    let table = one(alloc, numbers.vars, never)?;
    play_session(alloc, mode, disk, numbers, parts, table, calls, out)
}

// The table of `nonneg` alone, over variable 0.
fn one(alloc: Global, vars: u16, test: Test) -> Result<Table, Fault>
    requires callable { MayCall (Test.pre test) 1 }
    requires stated { HasMeaning (Test.post test) 1 }
    ensures { IfOk result (λ table. table.vars ≡ vars) }
{
    let name = Name::new("nonneg")?;
    let invariant = Invariant::new(name, vec![in alloc; 0]?, test)?;
    Table::of(alloc, vec![in alloc; invariant]?, vars)
}
