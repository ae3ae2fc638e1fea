//! The transactions that are settled.

use std::alloc::{AllocError, Global};
use tmem_builtins::{add_to, all_of, first_of, names, put, read, take};
use tmem_tree::Tx;

/// A transaction.
#[derive(Clone, Copy, Debug)]
pub(crate) enum Task {
    /// Writes a variable, and registers the invariant. It is short.
    Puts,
    /// Adds to a variable by a stored step, so it is not short.
    Adds,
    /// Takes what there is not, or adds.
    Chooses,
    /// Reads all variables.
    Reads,
    /// Breaks the invariant.
    Breaks,
    /// Aborts behind a read.
    Aborts,
    /// Retries behind a read. No call that waits makes it.
    Retries,
}

/// All of them, in the order in which they are settled.
pub(crate) const TASKS: &[Task] = &[
    Task::Puts,
    Task::Adds,
    Task::Chooses,
    Task::Reads,
    Task::Breaks,
    Task::Aborts,
    Task::Retries,
];

impl Task {
    pub(crate) fn tx(self, alloc: Global) -> Result<Tx, AllocError> {
        match self {
            Task::Puts => puts(alloc),
            Task::Adds => add_to(alloc, 1, 10),
            Task::Chooses => chooses(alloc),
            Task::Reads => reads(alloc),
            Task::Breaks => put(alloc, 0, -1),
            Task::Aborts => behind_read(alloc, Tx::Abort { code: 9 }),
            Task::Retries => behind_read(alloc, Tx::Retry),
        }
    }
}

fn puts(alloc: Global) -> Result<Tx, AllocError> {
    both(alloc, put(alloc, 0, 5)?, Tx::Check { name: names()[0] })
}

fn chooses(alloc: Global) -> Result<Tx, AllocError> {
    first_of(alloc, take(alloc, 2, 100)?, add_to(alloc, 3, 2)?)
}

fn reads(alloc: Global) -> Result<Tx, AllocError> {
    let mut all = Vec::new(alloc);
    for var in 0..4 {
        all.push(read(var).into_register(0))?;
    }
    Ok(all_of(all))
}

fn behind_read(alloc: Global, last: Tx) -> Result<Tx, AllocError> {
    both(alloc, read(2).into_register(0), last)
}

// One after the other.
fn both(alloc: Global, first: Tx, second: Tx) -> Result<Tx, AllocError> {
    Ok(all_of(vec![in alloc; first, second]?))
}
