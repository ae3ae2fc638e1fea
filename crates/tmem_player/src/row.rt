//! What a row asks for.
ghost use Rattle.std.specs.Prelude.{All};
ghost use Rattle.tmem_event.specs.Events.{NamesAttempt};

use std::alloc::{AllocError, Global};
use tmem_disk::{DeviceFault, Fill};
use tmem_event::Event;
use tmem_tree::Tx;

/// A row that was read and checked whole.
#[derive(Drop)]
pub(crate) struct Row {
    pub(crate) numbers: Numbers,
    pub(crate) acts: Vec<RowAct>,
}

/// The numbers of a store.
#[derive(Clone, Copy)]
pub(crate) struct Numbers {
    pub(crate) vars: u16,
    pub(crate) slots: u16,
}

/// One thing that a row does with its device.
#[derive(Drop)]
pub(crate) enum RowAct {
    /// Puts a device of so many zeros in its place.
    Blank(u64),
    /// Does something to the device that needs no store.
    Touch(Touch),
    /// Does something with closures.
    Do(RowTask),
}

/// What is done with closures, for which numbers and under which invariants.
#[derive(Drop)]
pub(crate) struct RowTask {
    pub(crate) handed: Handed,
    pub(crate) numbers: Numbers,
    pub(crate) job: RowJob,
}

/// What is done to a device that needs no store.
#[derive(Drop)]
pub(crate) enum Touch {
    Format(Numbers),
    /// Lets the call of this kind with this number from now fail.
    Fail(DeviceFault, u64),
    /// Crashes the device at the write of this number from now.
    CrashAtWrite(u64, Fill),
    /// Crashes the device at the next write that starts at this offset.
    CrashAtPlace(u64, Fill),
    CrashNow(Fill),
    /// Starts the device again, if it has crashed.
    Restart,
    /// Prints so many bytes from this offset on.
    Bytes(u64, u64),
    /// Writes bytes from this offset on, and syncs.
    Write(u64, Vec<u8>),
    /// Reads so many bytes from the first offset on, writes them from the second on, and syncs.
    Copy(u64, u64, u64),
    /// Opens a journal on the device.
    Recover(Numbers),
}

/// Which invariants a world is opened with.
#[derive(Clone, Copy)]
pub(crate) enum Handed {
    /// Those of the program.
    Builtin,
    None,
    /// One of the name `nonneg`, over variable 0, that is always false.
    Broken,
}

/// What is done with closures.
#[derive(Drop)]
pub(crate) enum RowJob {
    /// Opens the device, and plays these parts on it.
    Session(Vec<RowPart>),
    /// Evaluates a transaction in two ways, where the variables have these values, and each further one 0.
    Evaluate(Vec<i64>, Tx),
}

/// A part of what is played on one world.
#[derive(Drop)]
pub(crate) enum RowPart {
    Events(Events),
    Show,
    /// Prints the registers of the last transaction that was answered with some.
    Registers,
    /// Prints how often closures and stored steps were called since the last time.
    Calls,
}

/// Events that name attempts that a world has.
#[derive(Drop)]
pub(crate) struct Events {
    pub(crate) list: Vec<Event>,
    ghost fit: { All NamesAttempt list.items },
}

impl Events {
    pub(crate) fn new(alloc: Global) -> Events {
        Events {
            list: Vec::new(alloc),
        }
    }

    pub(crate) fn push(&mut self, event: Event) -> Result<(), AllocError>
        requires { NamesAttempt event }
    {
        self.list.push(event)?;
        Ok(())
    }
}
