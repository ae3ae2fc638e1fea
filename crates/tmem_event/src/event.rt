// What a world is asked, and what it answers.
use tmem_fault::{Fault, Name};
use tmem_tree::{Settled, Tx};

/// How many attempts a world holds, numbered from 0.
pub const ATTEMPTS: usize = 16;

/// One atomic action of a caller.
#[derive(Debug, Drop)]
pub enum Event {
    /// Makes a plan of a transaction. The attempt with this number, below 16, holds it, whatever it held before.
    /// Refused with `Memory`, `Closed`, `BadPlan`.
    Begin { slot: u8, tx: Tx },
    /// Evaluates the attempt's plan on the values that it has read and the answers that it was given. Where it needs one more
    /// value, that is read; where it needs the answer to a test, that is made. Refused with `Closed`, `Memory`.
    Turn { slot: u8 },
    /// Settles the attempt once it has ended. Refused with `Closed`, `Conflict`, `Full`, `Spent`; the attempt is kept
    /// then.
    Settle { slot: u8 },
    /// Makes the oldest committed transactions that wait durable, up to 64. Refused with `Closed`, `LogFull`, `Device`, `Unknown`.
    Flush,
    /// Writes the durable state as the next image, and frees every slot. No transaction is durable that was not.
    /// Refused with `Closed`, `Spent`, `Device`, `Unknown`.
    Checkpoint,
    /// Asks how many committed transactions are known durable. Refused with `Closed`.
    Look,
    /// Drops the core, the journal and all attempts, and opens the same device again. Refused with `Memory`, `Device`,
    /// `NotFormatted`, `Damaged`, `Geometry`, `Spent`, `Missing`, `Broken`, and then there is no core.
    Reopen,
}

/// What an event is answered.
#[derive(Clone, Copy, Debug, PartialEq, Eq)]
pub enum Reply {
    /// The attempt holds the plan.
    Begun,
    /// The plan needed this variable, and read its present value.
    Read { var: u16, value: i64 },
    /// The plan tested this invariant at its point, and it was true or false there.
    Probed { name: Name, held: bool },
    /// The plan has ended.
    Ended,
    /// The attempt is empty, or has not ended.
    Idle,
    /// The transaction was settled, and answered so.
    Settled(Settled),
    /// So many committed transactions are durable.
    Durable(u64),
    /// The next image was written, and every slot is free.
    Checkpointed,
    /// So many committed transactions are known durable.
    Looked(u64),
    /// The device was opened, and so many committed transactions were found.
    Opened(u64),
    /// The event was refused.
    Fault(Fault),
}
