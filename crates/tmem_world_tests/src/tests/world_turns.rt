//! An evaluation of as many turns as there may be, over invariants with footprints of their own, and the signatures of their table.
ghost use Rattle.std.specs.Prelude.{◌≡◌, ◌≤◌, length};
ghost use Rattle.tmem_world_tests.specs.Programs.{is_last_not_negative};

use super::names::{add, numbered, variables_of};
use super::worlds::{Played, committed, opened};
use std::alloc::Global;
use std::test::Fail;
use tmem_fault::Fault;
use tmem_invariants::Invariants;
use tmem_tables::Table;
use tmem_tree::{MAX_TURNS, Signature, Steps, StoredSteps, Tx, signatures_of};
use tmem_world::{Event, Reply};

const VARS: u16 = 1024;

/// Reads 503 variables of which no footprint has one, and checks eight invariants: 512 nodes.
fn reads_and_checks(alloc: Global) -> Result<Tx, Fault> {
    let mut all = Vec::new(alloc);
    for var in 128..631u16 {
        all.push(Tx::Read { var, reg: 0 })?;
    }
    for n in 0..8u8 {
        let name = numbered(n)?;
        all.push(Tx::Check { name })?;
    }
    Ok(Tx::Seq(all))
}

/// How many turns a transaction takes until it has ended, or 0 where the most that there may be are too few.
fn turns<W: Played>(world: &mut W, tx: Tx) -> u32 {
    world.step(Event::Begin { slot: 0, tx });
    for turn in 1..=MAX_TURNS {
        let reply = world.step(Event::Turn { slot: 0 });
        if matches!(reply, Reply::Ended) {
            return turn;
        }
    }
    0
}

/// How many turns that transaction takes as the first of a store, or 0 where it is not committed then.
fn committed_after<W: Played>(alloc: Global, world: &mut W) -> Result<u32, Fault> {
    let taken = turns(world, reads_and_checks(alloc)?);
    if world.step(Event::Settle { slot: 0 }) == committed(0, 0) {
        Ok(taken)
    } else {
        Ok(0)
    }
}

/// The same in a new store.
fn turns_of_new_store<T: Invariants + Drop, S: StoredSteps + Drop>(
    alloc: Global,
    table: T,
    steps: S,
) -> Result<u32, Fault> {
    match opened(alloc, table, steps) {
        Ok(mut world) => committed_after(alloc, &mut world),
        Err(fault) => Err(fault),
    }
}

/// Whether the signatures of a table are those of the eight invariants.
fn has_eight_signatures<T: Invariants>(alloc: Global, table: &T) -> Result<bool, Fault> {
    are_of_eight(&signatures_of(alloc, table)?)
}

/// Whether signatures are those.
fn are_of_eight(signatures: &[Signature]) -> Result<bool, Fault> {
    let mut n = 0u8;
    for signature in signatures {
        if n > 7 || !is_signature_of(signature, n)? {
            return Ok(false);
        }
        n += 1;
    }
    Ok(n == 8)
}

/// Whether a signature is that of the invariant of a number.
fn is_signature_of(signature: &Signature, number: u8) -> Result<bool, Fault>
    requires { number ≤ 7 }
{
    let footprint = signature.footprint.as_slice();
    if footprint.len() != 16 || signature.name != numbered(number)? {
        return Ok(false);
    }
    let first = 16 * u16::from(number);
    Ok(footprint[0] == first && footprint[15] == first + 15)
}

/// How many turns that transaction takes over a table, or none where its signatures are not those of the eight invariants.
fn turns_over<T: Invariants + Drop, S: StoredSteps + Drop>(
    alloc: Global,
    table: T,
    steps: S,
) -> Result<Option<u32>, Fault> {
    if has_eight_signatures(alloc, &table)? {
        Ok(Some(turns_of_new_store(alloc, table, steps)?))
    } else {
        Ok(None)
    }
}

/// How many turns it takes over eight invariants, each of which is that the last of its sixteen variables is not negative.
fn turns_over_eight(alloc: Global) -> Result<Option<u32>, Fault> {
    let mut entries = Vec::new(alloc);
    for n in 0..8u8 {
        let last = Box::new(
            alloc,
            |values: &[i64]| -> bool
                requires { length values.now ≡ 16 }
                ensures { result ≡ is_last_not_negative values.now }
            { values[15] >= 0 },
        )?;
        add(&mut entries, n, variables_of(alloc, n)?, last)?;
    }
    let table = Table::of(alloc, entries, VARS)?;
    turns_over(alloc, table, Steps::of(Vec::new(alloc))?)
}

// at: 512 nodes, 8 checks, 16 footprint variables, 1024 variables
#[test]
fn an_evaluation_takes_as_many_turns_as_there_may_be(rt: HostRuntime) -> Result<(), Fail> {
    // 503 reads, and for each of eight checks sixteen values and a test; the last turn ends
    assert!(rt; turns_over_eight(rt.alloc())? == Some(640));
    Ok(())
}
