//! A table of as many invariants as there may be: which ones are tested where a variable is written, and which one is named.
ghost use Rattle.std.specs.Prelude.{◌≡◌, length};
ghost use Rattle.tmem_world_tests.specs.Programs.{is_sum_not_negative};

use super::names::add;
use std::alloc::Global;
use std::process::Abort;
use std::test::Fail;
use tmem_fault::Fault;
use tmem_invariants::Invariants;
use tmem_tables::Table;

/// A variable, the set of the neighbours' invariants over it, and the first that is false where it is -1 and all others
/// are 0.
const TOUCHING: &[(u16, u64, usize)] = &[
    (5, 48, 4),
    (0, 0x8000_0000_0000_0001, 0),
    (63, 0xC000_0000_0000_0000, 62),
];

/// What is asked where a variable is -1: which ones are registered and proposed, whether that variable was written or else
/// variable 30, and whether one is found false.
const ASKED: &[(u64, u64, bool, bool)] = &[
    (u64::MAX, 0, true, true),
    (0, u64::MAX, true, true),
    (0, 0, true, false),
    (u64::MAX, 0, false, false),
];

/// Whether a table of 64 neighbours gives these answers where a variable is -1: `first` is the first false one of what is asked, and
/// `of_all` the first of all.
fn finds(table: &Table, var: u16, first: usize, of_all: usize) -> bool
    requires { table.now.vars ≡ 64 }
{
    let mut values = [0; 64];
    if usize::from(var) >= values.len() {
        return false;
    }
    values[usize::from(var)] = -1;
    for (registered, proposed, is_written, is_found) in ASKED {
        let written = if *is_written { (var, -1) } else { (30, 0) };
        let had = table.test_touched(&values, *registered, *proposed, &[written]);
        if had != is_found.then_some(first) {
            return false;
        }
    }
    table.test_all(&values, u64::MAX, 0) == Some(of_all)
}

/// Whether it knows what is over which variable, and finds the first false one of that.
fn knows_neighbours(table: &Table) -> bool
    requires { table.now.vars ≡ 64 }
{
    for (var, touching, first) in TOUCHING {
        if *var >= 64 || table.touching(*var) != *touching || !finds(table, *var, *first, *first) {
            return false;
        }
    }
    true
}

/// Each of 64 invariants is that the sum of a variable and its neighbour is not negative.
fn keeps_neighbours(rt: &impl Abort, alloc: Global) -> Result<(), Fault> {
    let mut entries = Vec::new(alloc);
    for n in 0..64u8 {
        let sum = Box::new(
            alloc,
            |values: &[i64]| -> bool
                requires { length values.now ≡ 2 }
                ensures { result ≡ is_sum_not_negative values.now }
            { values[0] as i128 + values[1] as i128 >= 0 },
        )?;
        let footprint = vec![in alloc; u16::from(n), u16::from((n + 1) % 64)]?;
        add(&mut entries, n, footprint, sum)?;
    }
    let table = Table::of(alloc, entries, 64)?;
    assert!(rt; knows_neighbours(&table));
    // the invariants 4 and 5 are over variable 5, so the first one is named by both
    assert!(rt; !finds(&table, 5, 5, 4));
    assert!(rt; !finds(&table, 5, 4, 5));
    Ok(())
}

#[test]
fn a_write_is_tested_by_the_invariants_over_its_variable(rt: HostRuntime) -> Result<(), Fail> {
    keeps_neighbours(&rt, rt.alloc())?;
    Ok(())
}
