//! Transactions that are built over the steps of scripts, on a world.
use super::worlds::{Played, commit, opened};
use std::alloc::{AllocError, Global};
use std::process::Abort;
use std::test::Fail;
use tmem_builtins::{add_to, all_of, first_of, first_of_several, put, read, stored_steps, take};
use tmem_fault::Fault;
use tmem_invariants::Invariants;
use tmem_tables::Table;
use tmem_tree::{StoredSteps, Tx};
use tmem_world::{Reply, Settled};

/// What is built.
#[derive(Clone, Copy)]
enum Built {
    Is(u16, i64),
    IsAtLeast(u16, i64),
    Put(u16, i64),
    AddTo(u16, i64),
    Take(u16, i64),
    /// Takes so much of the one variable and adds it to the other.
    Move(u16, u16, i64),
    /// Takes 1 of variable 0, or where that retries, puts this into variable 2.
    TakeOrPut(i64),
    /// The same, with a third alternative behind them.
    TakeOrPutOr(i64),
    /// The last of ten alternatives puts this into variable 2, and the others retry.
    LastOfTen(i64),
    OneOfNone,
}

/// How a transaction ends.
#[derive(Clone, Copy, Debug, PartialEq)]
enum Ends {
    Commits,
    Sees,
    Retries,
    Aborts(u16),
    Otherwise,
}

/// What is built, one after another on a store of zeros, and how each ends.
const ROWS: &[(Built, Ends)] = &[
    (Built::Put(0, 7), Ends::Commits),
    (Built::Is(0, 7), Ends::Sees),
    (Built::Is(0, 8), Ends::Retries),
    (Built::Is(0, 6), Ends::Retries),
    (Built::IsAtLeast(0, 7), Ends::Sees),
    (Built::IsAtLeast(0, 8), Ends::Retries),
    (Built::AddTo(0, 3), Ends::Commits),
    (Built::Is(0, 10), Ends::Sees),
    (Built::Take(0, 11), Ends::Retries),
    (Built::Take(0, 4), Ends::Commits),
    (Built::Is(0, 6), Ends::Sees),
    (Built::Move(0, 1, 6), Ends::Commits),
    (Built::Is(0, 0), Ends::Sees),
    (Built::Is(1, 6), Ends::Sees),
    (Built::TakeOrPut(5), Ends::Commits),
    (Built::Is(2, 5), Ends::Sees),
    (Built::TakeOrPutOr(9), Ends::Commits),
    (Built::Is(2, 9), Ends::Sees),
    (Built::LastOfTen(4), Ends::Commits),
    (Built::Is(2, 4), Ends::Sees),
    (Built::OneOfNone, Ends::Retries),
    (Built::Put(3, i64::MAX), Ends::Commits),
    (Built::AddTo(3, 1), Ends::Aborts(65535)),
    (Built::Put(3, i64::MIN), Ends::Commits),
    (Built::Take(3, 1), Ends::Retries),
    (Built::Take(3, i64::MIN), Ends::Commits),
    (Built::Is(3, 0), Ends::Sees),
];

impl Built {
    fn tx(self, alloc: Global) -> Result<Tx, AllocError> {
        match self {
            Built::Is(var, value) => read(var).is(alloc, value),
            Built::IsAtLeast(var, value) => read(var).is_at_least(alloc, value),
            Built::Put(var, value) => put(alloc, var, value),
            Built::AddTo(var, n) => add_to(alloc, var, n),
            Built::Take(var, n) => take(alloc, var, n),
            Built::Move(from, to, n) => moves(alloc, from, to, n),
            Built::TakeOrPut(n) => first_of(alloc, take(alloc, 0, 1)?, put(alloc, 2, n)?),
            Built::TakeOrPutOr(n) => takes_or_puts_or(alloc, n),
            Built::LastOfTen(n) => last_of_ten(alloc, n),
            Built::OneOfNone => first_of_several(alloc, Vec::new(alloc)),
        }
    }
}

fn moves(alloc: Global, from: u16, to: u16, n: i64) -> Result<Tx, AllocError> {
    let parts = vec![in alloc; take(alloc, from, n)?, add_to(alloc, to, n)?]?;
    Ok(all_of(parts))
}

fn takes_or_puts_or(alloc: Global, n: i64) -> Result<Tx, AllocError> {
    let alternatives = vec![in alloc; take(alloc, 0, 1)?, put(alloc, 2, n)?, put(alloc, 2, 1)?]?;
    first_of_several(alloc, alternatives)
}

fn last_of_ten(alloc: Global, n: i64) -> Result<Tx, AllocError> {
    let mut alternatives = Vec::new(alloc);
    for _ in 0..9 {
        alternatives.push(Tx::Retry)?;
    }
    alternatives.push(put(alloc, 2, n)?)?;
    first_of_several(alloc, alternatives)
}

fn end_of(reply: &Reply) -> Ends {
    match reply {
        Reply::Settled(Settled::Committed { .. }) => Ends::Commits,
        Reply::Settled(Settled::Seen { .. }) => Ends::Sees,
        Reply::Settled(Settled::Retry) => Ends::Retries,
        Reply::Settled(Settled::Aborted(code)) => Ends::Aborts(*code),
        _ => Ends::Otherwise,
    }
}

fn plays<W: Played>(rt: &impl Abort, alloc: Global, world: &mut W) -> Result<(), Fault> {
    let mut row = 0u32;
    for (built, want) in ROWS {
        let had = end_of(&commit(world, built.tx(alloc)?));
        assert!(rt; had == *want, "row {row} ends as {had:?}");
        row = row.wrapping_add(1);
    }
    Ok(())
}

fn plays_over<T: Invariants + Drop, S: StoredSteps + Drop>(
    rt: &impl Abort,
    alloc: Global,
    table: T,
    steps: S,
) -> Result<(), Fault> {
    let mut world = opened(alloc, table, steps)?;
    plays(rt, alloc, &mut world)
}

#[test]
fn what_is_built_does_what_it_says(rt: HostRuntime) -> Result<(), Fail> {
    let alloc = rt.alloc();
    let table = Table::of(alloc, Vec::new(alloc), 4)?;
    plays_over(&rt, alloc, table, stored_steps())?;
    Ok(())
}
