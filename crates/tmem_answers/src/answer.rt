//! Answers.
use tmem_fault::{Fault, Name};
use tmem_tree::Settled;

/// What a request is answered.
#[derive(Drop)]
pub enum Answer {
    /// How a transaction ended. Registers are printed without the zeros at their end.
    Settled(Settled),
    /// That an invariant refused it, and the values that the failing test saw.
    Refused {
        name: Name,
        because: Vec<(u16, i64)>,
    },
    /// Variables, each with its value after so many transactions.
    Values {
        count: u64,
        values: Vec<(u16, i64)>,
    },
    /// How many transactions there are, and the registered names and all values after them.
    State {
        count: u64,
        names: Vec<Name>,
        values: Vec<i64>,
    },
    /// To a request that waited: it waits no more.
    Cancelled,
    /// Whether the request that is to wait no more was found.
    Found(bool),
    /// A transaction is kept under this word.
    Kept(Name),
    /// So many transactions are durable.
    Durable(u64),
    Checkpointed,
    Stats(Stats),
    Fault(Fault),
}

/// What was counted since a store was opened, and what there is now.
#[derive(Clone, Copy)]
pub struct Stats {
    /// Transactions that were committed.
    pub committed: u64,
    /// Transactions that an invariant refused.
    pub refused: u64,
    /// Attempts made elsewhere that met another value.
    pub conflicts: u64,
    /// Flushes of the log.
    pub flushes: u64,
    /// Checkpoints that were written.
    pub checkpoints: u64,
    /// Requests that wait now.
    pub waiting: u64,
    /// Transactions that are kept now.
    pub kept: u64,
    /// Slots of the log that are free now.
    pub free_slots: u64,
}
