//! The words of which scenes are made: what a thread does, and what it is answered.
ghost use Rattle.std.specs.Prelude.{◌≡◌};

use super::no_closures::always;
use super::nodes::{Node, before, behind, or_else, seq, when};
use std::alloc::{AllocError, Global};
use tmem_core::Settled;
use tmem_fault::Fault;
use tmem_front::Awaited;
use tmem_tree::{MAX_SHORT, Tx};

/// A transaction.
#[derive(Clone, Copy)]
pub(super) enum Task {
    /// Puts a number in register 0, and writes it to a variable.
    Write(u16, i64),
    /// Adds 1 to variable 0. It is a long plan, as each task here that calls a step is: another thread can come in between.
    AddOne,
    /// Writes to variable 1 what variable 0 has. It calls no step.
    Copy,
    /// Reads variable 2 into register 0, and retries until it is at least 1. Register 2 has it then.
    NeedOne,
    /// Adds 1 to variable 0, and then retries until variable 2 is at least 1.
    AddOnceThereIsOne,
    /// Writes a number to two variables.
    WriteBoth(u16, u16, i64),
    /// Reads each variable up to this one, and retries until this one is at least 1. Register 3 has the variable before it, and the
    /// others are as those of `NeedOne`.
    NeedLast(u16),
    /// Retries until a variable is at least so great, and adds 1 to another one.
    AddBehind(u16, i64, u16),
    /// Writes a number to each of 64 variables.
    WriteEach(i64),
    /// Makes 31 choices, each in the first branch of the next one, that all retry, but for the last: it writes a 1 to variable 0.
    Choose,
    /// Aborts with this code.
    Abort(u16),
    /// Reads a variable, and another one where that is less than 1, and retries until either is at least 1.
    NeedEither(u16, u16),
    /// Reads a variable into register 0, and another one where that is 0, and retries where both are. It calls no step.
    WaitForEither(u16, u16),
    /// Retries.
    Never,
    /// Registers the invariant.
    Register,
    /// Adds 1 to variable 0, and registers it.
    AddAndRegister,
    /// Retires it.
    Retire,
    /// Writes a number to a variable, and retires it.
    WriteAndRetire(u16, i64),
    /// Reads variable 0 and adds that to itself, reads 508 variables behind variable 2, and registers the invariant: 512 nodes, and 513
    /// turns where that is over variables 1 and 2.
    ReadAndRegister,
}

/// What a thread does next, mostly one call of the front by its pass.
#[derive(Clone, Copy)]
pub(super) enum Move {
    /// `atomically`, `try_atomically`, and an attempt, which is kept until it is settled.
    Commit(Task),
    TryCommit(Task),
    Attempt(Task),
    Settle,
    /// Writes 1 to variable 0 so often by `try_atomically`, or commits a task. Answers how often the number was the next one, from 0.
    Fill(u64),
    FillBy(Task, u64),
    /// `PassOn(var, least, other, times)`: waits until a variable is at least so great, and adds 1 to another one, and so on with one
    /// more, by `atomically_with_room`. Answers how often, or the first other answer.
    PassOn(u16, i64, u16, u64),
    /// The same by `atomically_within`, for no longer than a minute each, and again where there is no room.
    PassOnWithin(u16, i64, u16, u64),
    /// Commits `AddOne` so often by `try_atomically`, again after each conflict. Answers how often it did.
    Add(u64),
    /// `atomically_within`, for so many milliseconds, or with the longest limit of all where that is `u64::MAX`. So are the others
    /// that have a limit.
    CommitWithin(Task, u64),
    /// Commits `AddOne` so often by `atomically_with_room`. Answers how often, or another answer.
    AddWithRoom(u64),
    /// `commit_durable`.
    CommitDurable(Task),
    /// Commits `AddOne` so often by `commit_durable`. Answers how often, or another answer.
    AddDurably(u64),
    /// Writes 1 to variable 0 so often by `atomically`, each time with a `flush_with_room` behind it. Answers how often, or the first
    /// refusal.
    CommitAndFlush(u64),
    Look,
    Seen,
    Vouch(u64),
    Await(u64),
    /// `await_durable_within`, for so many milliseconds.
    AwaitWithin(u64, u64),
    Peek(u16),
    Count,
    /// Whether the invariant is registered.
    HasInvariant,
    /// How many values the first so many variables have.
    CountValues(u16),
    /// Whether these variables have these values at one moment.
    ValuesAre([u16; 3], [i64; 3]),
    Flush,
    FlushWithRoom,
    FlushAll,
    /// Whether so many flushes and checkpoints were made, and so many slots are free.
    LogIs([u64; 3]),
    /// A flusher whose pace has so many turns.
    RunFlusher(u64),
    Checkpoint,
    Shut,
    Close,
    /// The fault that shut the store, where one did.
    FaultOf,
    /// Takes a pass in place of the one in hand, which is dropped.
    NewPass,
    /// The same so often, until one is refused. Answers how many were given out.
    NewPasses(u64),
    /// Takes a pass of the pool in place of the one in hand, which is dropped.
    Acquire,
    /// The same by `acquire_pass_within`, for so many milliseconds. Where the time is over, the one in hand stays.
    AcquireWithin(u64),
    /// Hands the one in hand to the pool.
    ReleasePass,
    /// Takes the other pass in hand, a new one at first.
    OtherPass,
    /// Lets so many milliseconds pass.
    Sleep(u64),
    /// So many of the next syncs, or additions, or turns of a pace, are each held until one more is released.
    HoldSyncs(u64),
    HoldSteps(u64),
    HoldTurns(u64),
    /// Waits until so many were held, for ten seconds at the most.
    AwaitHeld(u64),
    /// Releases one. `Late` where one was held for ten seconds.
    Release,
    /// Whether additions were evaluated so often at the most.
    AddsAtMost(u64),
    /// Whether `NeedOne` was evaluated so often at the most.
    NeedsAtMost(u64),
    /// Whether so many turns of a pace began with a whole batch.
    FullTurnsAre(u64),
    /// Whether the calls that wait have tried so often at the most.
    TriesAtMost(u64),
    /// Waits until they have tried so often, for ten seconds at the most.
    AwaitTries(u64),
    /// Waits until a variable has a value, for ten seconds at the most.
    AwaitValue(u16, i64),
    /// Lets a clock that stands still go on by so many milliseconds.
    Advance(u64),
}

/// Which fault a move is refused with, without what some faults carry: so a line is plain data, and stands in a table.
#[derive(Clone, Copy, Debug, PartialEq)]
pub(super) enum Refusal {
    Memory,
    Device,
    Closed,
    Unknown,
    Full,
    LogFull,
    Conflict,
    NotFormatted,
    Damaged,
    Missing,
    Broken,
    BadPlan,
    BadName,
    BadFootprint,
    Spent,
    NoSeat,
    Geometry,
}

impl Refusal {
    fn of(fault: Fault) -> Refusal {
        match fault {
            Fault::Memory => Refusal::Memory,
            Fault::Device => Refusal::Device,
            Fault::Closed => Refusal::Closed,
            Fault::Unknown => Refusal::Unknown,
            Fault::Full => Refusal::Full,
            Fault::LogFull => Refusal::LogFull,
            Fault::Conflict => Refusal::Conflict,
            Fault::NotFormatted => Refusal::NotFormatted,
            Fault::Damaged => Refusal::Damaged,
            Fault::Missing(_) => Refusal::Missing,
            Fault::Broken(_) => Refusal::Broken,
            Fault::BadPlan(_) => Refusal::BadPlan,
            Fault::BadName => Refusal::BadName,
            Fault::BadFootprint => Refusal::BadFootprint,
            Fault::Spent => Refusal::Spent,
            Fault::NoSeat => Refusal::NoSeat,
            Fault::Geometry => Refusal::Geometry,
        }
    }
}

/// What a move is answered.
#[derive(Clone, Copy, Debug, PartialEq)]
pub(super) enum Answer {
    Done,
    Refused(Refusal),
    Committed(u64),
    /// Changes nothing: how many were committed before it, and its registers.
    Saw(u64, [i64; 16]),
    Retried,
    Aborted(u16),
    Broken,
    Number(u64),
    Value(i64),
    Holds(bool),
    /// Nothing that could be asked for: a vouch for a number that the pass did not see, a settle with no attempt.
    Nothing,
    /// What was waited for did not come in time.
    Late,
}

impl Task {
    /// What a plan is made of.
    pub(super) fn tx(&self, alloc: Global) -> Result<Tx, AllocError> {
        match *self {
            Task::Write(var, number) => seq(alloc, &write_nodes(var, number)),
            Task::Copy => seq(alloc, &[Node::ReadValue(0, 0), Node::WriteValue(1, 0)]),
            Task::WriteBoth(var, other, number) => {
                both(
                    alloc,
                    &write_nodes(var, number),
                    &write_nodes(other, number),
                )
            }
            Task::WaitForEither(var, other) => wait_for_either(alloc, var, other),
            Task::Never => Ok(Tx::Retry),
            Task::Choose => nested_choices(alloc),
            Task::Abort(code) => Ok(Tx::Abort { code }),
            Task::WriteEach(number) => {
                seq(alloc, &[Node::PutNumber(0, number), Node::WriteEachOf(64)])
            }
            Task::Register => Ok(Tx::Check { name: always() }),
            Task::ReadAndRegister => read_and_register(alloc),
            Task::Retire => Ok(Tx::Retire { name: always() }),
            Task::WriteAndRetire(var, number) => write_and_retire(alloc, var, number),
            Task::AddOne => long(alloc, seq(alloc, &add_nodes(0))),
            Task::NeedOne => long(alloc, seq(alloc, &need_nodes(2, 1))),
            Task::NeedEither(var, other) => {
                long(
                    alloc,
                    either(alloc, &need_nodes(var, 1), &need_nodes(other, 1)),
                )
            }
            Task::NeedLast(var) => long(alloc, need_last(alloc, var)),
            Task::AddBehind(var, least, other) => {
                long(
                    alloc,
                    both(alloc, &need_nodes(var, least), &add_nodes(other)),
                )
            }
            Task::AddOnceThereIsOne => long(alloc, both(alloc, &add_nodes(0), &need_nodes(2, 1))),
            Task::AddAndRegister => long(alloc, add_and_register(alloc)),
        }
    }
}

// With 64 nodes behind it that do nothing: no short plan.
fn long(alloc: Global, tx: Result<Tx, AllocError>) -> Result<Tx, AllocError> {
    behind(alloc, tx, &[Node::DoNothing(MAX_SHORT)])
}

// One behind the other.
fn both(alloc: Global, first: &[Node], second: &[Node]) -> Result<Tx, AllocError> {
    Ok(Tx::Seq(vec![in alloc; seq(alloc, first)?, seq(alloc, second)?]?))
}

// The second where the first retries.
fn either(alloc: Global, first: &[Node], second: &[Node]) -> Result<Tx, AllocError> {
    or_else(alloc, seq(alloc, first)?, seq(alloc, second)?)
}

fn write_nodes(var: u16, number: i64) -> [Node; 2] {
    [Node::PutNumber(0, number), Node::WriteValue(var, 0)]
}

fn add_nodes(var: u16) -> [Node; 4] {
    [
        Node::ReadValue(var, 0),
        Node::PutNumber(1, 1),
        Node::CallStep(0, [0, 1], 0),
        Node::WriteValue(var, 0),
    ]
}

fn need_nodes(var: u16, least: i64) -> [Node; 3] {
    [
        Node::ReadValue(var, 0),
        Node::PutNumber(1, least),
        Node::CallStep(1, [0, 1], 2),
    ]
}

fn read_and_register(alloc: Global) -> Result<Tx, AllocError> {
    let nodes = [
        Node::ReadValue(0, 0),
        Node::CallStep(0, [0, 0], 1),
        Node::ReadEach(3, 511, 3),
        Node::CheckName(always()),
    ];
    seq(alloc, &nodes)
}

fn write_and_retire(alloc: Global, var: u16, number: i64) -> Result<Tx, AllocError> {
    let written = seq(alloc, &write_nodes(var, number));
    behind(alloc, written, &[Node::RetireName(always())])
}

fn add_and_register(alloc: Global) -> Result<Tx, AllocError> {
    behind(
        alloc,
        seq(alloc, &add_nodes(0)),
        &[Node::CheckName(always())],
    )
}

fn need_last(alloc: Global, last: u16) -> Result<Tx, AllocError> {
    before(
        alloc,
        &[Node::ReadEach(0, last, 3)],
        seq(alloc, &need_nodes(last, 1)),
    )
}

fn nested_choices(alloc: Global) -> Result<Tx, AllocError> {
    let mut tx = Tx::Retry;
    for _ in 0..30 {
        tx = or_else(alloc, tx, Tx::Retry)?;
    }
    or_else(alloc, tx, seq(alloc, &write_nodes(0, 1))?)
}

fn wait_for_either(alloc: Global, var: u16, other: u16) -> Result<Tx, AllocError> {
    or_else(alloc, wait_for(alloc, var)?, wait_for(alloc, other)?)
}

fn wait_for(alloc: Global, var: u16) -> Result<Tx, AllocError> {
    let waits = when(alloc, 0, Tx::Skip, Tx::Retry);
    before(alloc, &[Node::ReadValue(var, 0)], waits)
}

impl Answer {
    /// The answer to a call that is refused.
    pub(super) fn refused(fault: Fault) -> Answer {
        Answer::Refused(Refusal::of(fault))
    }

    /// The answer to a transaction.
    pub(super) fn to(settled: Result<Settled, Fault>) -> Answer {
        match settled {
            Ok(settled) => Answer::settled(&settled),
            Err(fault) => Answer::refused(fault),
        }
    }

    fn settled(settled: &Settled) -> Answer {
        match settled {
            Settled::Committed { number, .. } => Answer::Committed(*number),
            Settled::Seen { at, registers } => Answer::Saw(*at, *registers),
            Settled::Retry => Answer::Retried,
            Settled::Aborted(code) => Answer::Aborted(*code),
            Settled::Refused(_) => Answer::Broken,
        }
    }

    /// The answer to a call that answers how many there are.
    pub(super) fn number(counted: Result<u64, Fault>) -> Answer {
        match counted {
            Ok(number) => Answer::Number(number),
            Err(fault) => Answer::refused(fault),
        }
    }

    /// The answer to a call that only ends.
    pub(super) fn done(ended: Result<(), Fault>) -> Answer {
        match ended {
            Ok(()) => Answer::Done,
            Err(fault) => Answer::refused(fault),
        }
    }

    /// The answer to a call that asks for a fault.
    pub(super) fn fault(fault: Option<Fault>) -> Answer {
        match fault {
            Some(fault) => Answer::refused(fault),
            None => Answer::Nothing,
        }
    }

    /// The answer to a wait that has a limit.
    pub(super) fn awaited(ended: Result<Awaited, Fault>) -> Answer {
        match ended {
            Ok(Awaited::Durable) => Answer::Done,
            Ok(Awaited::TimedOut) => Answer::Late,
            Err(fault) => Answer::refused(fault),
        }
    }

    /// The answer to what comes in time or does not.
    pub(super) fn in_time(came: bool) -> Answer {
        if came { Answer::Done } else { Answer::Late }
    }
}
