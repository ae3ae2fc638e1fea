//! The device that the front is opened on.
ghost use Rattle.std.specs.Prelude.{◌≡◌};
ghost use Rattle.tmem_event.specs.Events.{NamesAttempt};

use std::alloc::Global;
use tmem_builtins::{put, stored_steps};
use tmem_disk::{Disk, SimDisk};
use tmem_event::Event;
use tmem_fault::Fault;
use tmem_invariants::Invariants;
use tmem_tables::Table;
use tmem_tree::{StoredSteps, Tx};
use tmem_world::{Layout, Reply, World, format};

/// How many variables the store has.
pub(crate) const VARS: u16 = 4;

/// How many batches its log takes.
pub(crate) const SLOTS: u16 = 4;

/// A device that was formatted for these numbers.
pub(crate) fn device(alloc: Global) -> Result<SimDisk, Fault> {
    SimDisk::new(alloc, Layout::new(VARS, SLOTS)?.end())
}

/// A device that holds one transaction: variable 1 is 7.
pub(crate) fn store(alloc: Global) -> Result<SimDisk, Fault> {
    let mut disk = device(alloc)?;
    format(&mut disk, VARS, SLOTS)?;
    let table = Table::of(alloc, Vec::new(alloc), VARS)?;
    with_transaction(alloc, disk, table, stored_steps())
}

// Opens a device, and puts the transaction there.
fn with_transaction<T: Invariants + Drop, S: StoredSteps + Drop>(
    alloc: Global,
    disk: SimDisk,
    table: T,
    steps: S,
) -> Result<SimDisk, Fault>
    requires { T.vars table ≡ 4 }
{
    match World::open(alloc, disk, VARS, SLOTS, table, steps) {
        Ok(mut world) => {
            commit(&mut world, put(alloc, 1, 7)?)?;
            Ok(world.into_disk())
        }
        Err((fault, _disk)) => Err(fault),
    }
}

// Commits a transaction, and makes it durable: the first one.
fn commit<D: Disk + Drop, T: Invariants + Drop, S: StoredSteps + Drop>(
    world: &mut World<D, T, S>,
    tx: Tx,
) -> Result<(), Fault> {
    step(world, Event::Begin { slot: 0, tx })?;
    step(world, Event::Turn { slot: 0 })?;
    step(world, Event::Settle { slot: 0 })?;
    match world.step(Event::Flush) {
        Reply::Durable(1) => Ok(()),
        Reply::Fault(fault) => Err(fault),
        _ => Err(Fault::Closed),
    }
}

// Plays an event. Answers the fault that it is refused with.
fn step<D: Disk + Drop, T: Invariants + Drop, S: StoredSteps + Drop>(
    world: &mut World<D, T, S>,
    event: Event,
) -> Result<(), Fault>
    requires { NamesAttempt event }
{
    match world.step(event) {
        Reply::Fault(fault) => Err(fault),
        _ => Ok(()),
    }
}

/// All bytes of a device.
pub(crate) fn content_of(alloc: Global, disk: &mut SimDisk) -> Result<Vec<u8>, Fault> {
    let len = disk.size() as usize;
    let mut bytes = vec![in alloc; 0; len]?;
    match disk.read(0, bytes.as_mut_slice()) {
        Ok(()) => Ok(bytes),
        Err(_) => Err(Fault::Device),
    }
}
