//! Makes the store, and serves it.
ghost use Rattle.std.specs.Prelude.{◌≡◌};
ghost use Rattle.std.specs.List.{list_any};
ghost use Rattle.tmem_builtins.specs.Invariants.{has_no_negative, is_negative};
ghost use Rattle.tmem_invariants.specs.Answers.{MayCall, Gives};
ghost use Rattle.tmem_caller.specs.Serving.{solvent};

use crate::serving::desk::serve_by_desk;
use crate::serving::input::Pieces;
use crate::serving::output::Output;
use crate::serving::row::{ServedBy, ServedRow};
use std::alloc::Global;
use std::sync::Wait;
use tmem_builtins::stored_steps;
use tmem_desk::DeskFailure;
use tmem_disk::SimDisk;
use tmem_fault::{Fault, Name};
use tmem_invariants::Invariants;
use tmem_journal::{Layout, format};
use tmem_serve::{InputEnd, ServeError, Served, serve_store};
use tmem_tables::{Invariant, Table, Test};

/// How many variables the store has.
pub(crate) const VARS: u16 = 4;

/// How many batches its log takes.
pub(crate) const SLOTS: u16 = 2;

/// How serving ended: all input was read, or why it ended early.
pub(crate) type ServingEnd = Result<(), DeskFailure>;

/// Serves the pieces of a row in a new store.
pub(crate) fn serve<R: Wait>(
    rt: &R,
    alloc: Global,
    row: &ServedRow,
    out: &mut Output,
) -> Result<ServingEnd, Fault> {
    let test = Box::new(
        alloc,
        |values: &[i64]| -> bool
            ensures { result ≡ has_no_negative values.now }
        { !has_negative(values) },
    )?;
    serve_under(rt, alloc, row, test, out)
}

// Makes the invariant of this test and its table, and serves the pieces of a row in a store with these.
fn serve_under<R: Wait>(
    rt: &R,
    alloc: Global,
    row: &ServedRow,
    test: Test,
    out: &mut Output,
) -> Result<ServingEnd, Fault>
    requires callable { MayCall (Test.pre test) 2 }
    requires stated { Gives (Test.post test) 2 has_no_negative }
{
    let names = [Name::new("solvent")?];
    let invariant = Invariant::new(names[0], vec![in alloc; 0, 1]?, test)?;
    let table = Table::of(alloc, vec![in alloc; invariant]?, VARS)?;
    let disk = device(alloc, row.fails)?;
    Ok(serve_row(rt, alloc, row, disk, &names, table, out))
}

// Whether a value is below zero.
fn has_negative(values: &[i64]) -> bool
    ensures { result ≡ list_any is_negative values.now }
{
    values.iter().any(|value| *value < 0)
}

// The device of a new store, of which this sync fails, counted from 0 once the store is open.
fn device(alloc: Global, fails: Option<u64>) -> Result<SimDisk, Fault> {
    let mut disk = SimDisk::new(alloc, Layout::new(VARS, SLOTS)?.end())?;
    format(&mut disk, VARS, SLOTS)?;
    if let Some(k) = fails {
        // an opening makes one sync
        disk.fail_sync(k.saturating_add(1));
    }
    Ok(disk)
}

// Serves the pieces of a row by a desk or by `serve_store`.
fn serve_row<T: Invariants + Drop, R: Wait>(
    rt: &R,
    alloc: Global,
    row: &ServedRow,
    disk: SimDisk,
    names: &[Name],
    table: T,
    out: &mut Output,
) -> ServingEnd
    requires vars { T.vars table ≡ VARS }
    requires named { names.now ≡ solvent.names }
    requires names { T.names table ≡ solvent.names }
    requires tests { T.is_stated table solvent.tests }
{
    if let ServedBy::Desk | ServedBy::SecondDesk = row.by {
        return serve_by_desk(rt, alloc, row, disk, names, table, out);
    }
    let served = Served {
        vars: VARS,
        slots: SLOTS,
        variables: &[],
        names,
        always: &[],
    };
    let mut input = Pieces::new(&row.pieces);
    match serve_store(
        rt,
        alloc,
        disk,
        served,
        table,
        stored_steps(),
        &mut input,
        out,
    ) {
        Ok(InputEnd::Reached) => Ok(()),
        Err(ServeError::Ended(failure)) => Err(failure),
        // (neither comes: no read fails, and no invariant has to be registered)
        Ok(InputEnd::Failed) | Err(ServeError::Unregistered(_)) => {
            Err(DeskFailure::Fault(Fault::Closed))
        }
    }
}
