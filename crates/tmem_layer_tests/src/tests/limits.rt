//! Steps, footprints and tables out of their limits.
ghost use Rattle.std.specs.Prelude.{◌≡◌, true};
ghost use Rattle.tmem_tree.specs.declared.step.StepAnswer.TheVariants.{Retry};

use super::effects::numbered;
use super::refusals::Refusal;
use super::refusals::Refusal::{BadFootprint, BadName};
use super::rows::assert_no_row_differs;
use std::alloc::Global;
use std::test::Fail;
use tmem_fault::{Cause, Fault};
use tmem_tables::{Invariant, Table};
use tmem_tree::{StepAnswer, StepEntry};

#[test]
fn a_step_of_five_arguments_is_refused(rt: HostRuntime) -> Result<(), Fail> {
    let step = Box::new(
        rt.alloc(),
        |_args: &[i64]| -> StepAnswer
            ensures { result ≡ Retry }
        { StepAnswer::Retry },
    )?;
    let refused = Some(Fault::BadPlan(Cause::BadArguments));
    assert!(rt; StepEntry::new(5, step).err() == refused);
    Ok(())
}

/// Tables: how many invariants of how many names are asked for, over which footprint of how many variables, and what refuses them. An
/// `Err` is by one of the invariants, and what is in an `Ok` by the table of them.
type Asked<'a> = (u8, u8, &'a [u16], u16, Result<Option<Refusal>, Refusal>);

/// What a table of so many invariants with so many names is refused by, over this footprint of so many variables. An `Err` where one of
/// the invariants is refused before.
fn refusal_of(
    alloc: Global,
    entries: u8,
    names: u8,
    footprint: &[u16],
    vars: u16,
) -> Result<Option<Fault>, Fault> {
    let mut made = Vec::new(alloc);
    for i in 0..entries {
        let name = numbered(if i < names { i } else { 0 })?;
        let Ok(read) = Vec::from_slice(alloc, footprint) else {
            return Err(Fault::Memory);
        };
        let always = Box::new(
            alloc,
            |_values: &[i64]| -> bool
                ensures { result ≡ true }
            { true },
        )?;
        if made.push(Invariant::new(name, read, always)?).is_err() {
            return Err(Fault::Memory);
        }
    }
    Ok(Table::of(alloc, made, vars).err())
}

/// The first row that is answered otherwise.
fn differing(alloc: Global, rows: &[Asked]) -> Option<usize> {
    for (row, (entries, names, footprint, vars, answer)) in rows.iter().enumerate() {
        let wanted = match *answer {
            Ok(None) => Ok(None),
            Ok(Some(refusal)) => Ok(Some(refusal.fault())),
            Err(refusal) => Err(refusal.fault()),
        };
        if refusal_of(alloc, *entries, *names, footprint, *vars) != wanted {
            return Some(row);
        }
    }
    None
}

static FOOTPRINTS: &[Asked<'static>] = &[
    (1, 1, &[], 17, Err(BadFootprint)),
    (1, 1, &[7], 17, Ok(None)),
    (
        1,
        1,
        &[0, 1, 2, 3, 4, 5, 6, 7, 8, 9, 10, 11, 12, 13, 14, 15],
        17,
        Ok(None),
    ),
    (
        1,
        1,
        &[0, 1, 2, 3, 4, 5, 6, 7, 8, 9, 10, 11, 12, 13, 14, 15, 16],
        17,
        Err(BadFootprint),
    ),
    (1, 1, &[3, 2, 3], 17, Err(BadFootprint)),
    (1, 1, &[3, 2, 1], 17, Ok(None)),
];

#[test]
fn footprints_out_of_limits_are_refused(rt: HostRuntime) {
    assert_no_row_differs(&rt, differing(rt.alloc(), FOOTPRINTS));
}

static TABLES: &[Asked<'static>] = &[
    (0, 1, &[3], 4, Ok(None)),
    (64, 64, &[3], 4, Ok(None)),
    (65, 65, &[3], 4, Ok(Some(BadName))),
    (2, 1, &[3], 4, Ok(Some(BadName))),
    (2, 1, &[4], 4, Ok(Some(BadName))),
    (65, 65, &[4], 4, Ok(Some(BadName))),
    (1, 1, &[4], 4, Ok(Some(BadFootprint))),
    (2, 2, &[4], 4, Ok(Some(BadFootprint))),
];

#[test]
fn tables_out_of_limits_are_refused(rt: HostRuntime) {
    assert_no_row_differs(&rt, differing(rt.alloc(), TABLES));
}
