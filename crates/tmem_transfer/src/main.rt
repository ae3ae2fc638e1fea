//! Two accounts on a device: money is moved under an invariant, made durable, and found again.
#![tactic(auto)]

ghost use Rattle.std.specs.Prelude.{◌≡◌, length, IfOk};
ghost use Rattle.tmem_transfer.specs.Accounts.{add_up_to_zero, reply_or_fault};
ghost use Rattle.tmem_world.specs.Represents.{numbers_of, HasCore};

use std::alloc::Global;
use tmem_disk::{Disk, SimDisk};
use tmem_fault::{Fault, Name};
use tmem_invariants::Invariants;
use tmem_tables::{Invariant, Table};
use tmem_tree::{MAX_TURNS, Steps, StoredSteps, Tx};
use tmem_world::{Event, Layout, Reply, Settled, World, format};

fn main(rt: HostRuntime) -> Result<(), Fault> {
    let alloc = rt.alloc();
    let balanced = Box::new(
        alloc,
        |accounts: &[i64]| -> bool
            requires { length accounts.now ≡ 2 }
            ensures { result ≡ add_up_to_zero accounts.now }
        { accounts[0] as i128 + accounts[1] as i128 == 0 },
    )?;
    let balanced = Invariant::new(Name::new("balanced")?, vec![in alloc; 0, 1]?, balanced)?;
    let table = Table::of(alloc, vec![in alloc; balanced]?, 2)?;
    let outcome = transfer_in_new(alloc, table, Steps::of(Vec::new(alloc))?)?;
    let _ = println!(rt;
        "the move is committed: {}, a loss: {}\ndurable {}, opened {}, found {} and {}",
        outcome.is_moved,
        outcome.is_lost,
        outcome.durable,
        outcome.opened,
        outcome.found.0,
        outcome.found.1
    );
    Ok(())
}

/// What came of two transactions.
#[derive(Clone, Copy)]
struct Outcome {
    /// Whether the move was committed.
    is_moved: bool,
    /// Whether the loss was.
    is_lost: bool,
    /// How many transactions a flush made durable.
    durable: u64,
    /// How many the next opening found.
    opened: u64,
    /// What the accounts have then.
    found: (i64, i64),
}

/// Makes a new store over these invariants and stored steps, and moves money there.
fn transfer_in_new<T: Invariants + Drop, S: StoredSteps + Drop>(
    alloc: Global,
    table: T,
    steps: S,
) -> Result<Outcome, Fault>
    requires { T.vars table ≡ 2 }
{
    let mut world = new_store(alloc, table, steps)?;
    transfer(alloc, &mut world)
}

/// Moves 30 from account 0 to account 1 of a new store, tries to lose it, and opens the store again.
fn transfer<D: Disk + Drop, T: Invariants + Drop, S: StoredSteps + Drop>(
    alloc: Global,
    world: &mut World<D, T, S>,
) -> Result<Outcome, Fault>
    requires { (numbers_of world.old).vars ≡ 2 }
{
    let is_moved = commit(world, move_once(alloc)?)?;
    let is_lost = commit(world, write(alloc, 1, 0)?)?;
    let Reply::Durable(durable) = reply_or_fault(world.step(Event::Flush))? else {
        return Err(Fault::Closed);
    };
    let Reply::Opened(opened) = reply_or_fault(world.step(Event::Reopen))? else {
        return Err(Fault::Closed);
    };
    if !world.has_core() {
        return Err(Fault::Closed);
    }
    Ok(Outcome {
        is_moved,
        is_lost,
        durable,
        opened,
        found: accounts(world),
    })
}

/// Moves 30, unless account 1 has something already: then it does nothing.
fn move_once(alloc: Global) -> Result<Tx, Fault> {
    let unless_there = Tx::When {
        reg: 1,
        then: Box::new(alloc, Tx::Retry)?,
        other: Box::new(alloc, move_thirty(alloc)?)?,
    };
    let once = Tx::Seq(vec![in alloc; Tx::Read { var: 1, reg: 1 }, unless_there]?);
    Ok(Tx::OrElse(Box::new(alloc, once)?, Box::new(alloc, Tx::Skip)?))
}

/// The transaction that moves 30 from account 0 to account 1, and registers the invariant.
fn move_thirty(alloc: Global) -> Result<Tx, Fault> {
    let (from, to) = (write(alloc, 0, -30)?, write(alloc, 1, 30)?);
    let name = Name::new("balanced")?;
    Ok(Tx::Seq(vec![in alloc; from, to, Tx::Check { name }]?))
}

/// A store of two variables on a device in memory.
fn new_store<T: Invariants + Drop, S: StoredSteps + Drop>(
    alloc: Global,
    table: T,
    steps: S,
) -> Result<World<SimDisk, T, S>, Fault>
    requires { T.vars table ≡ 2 }
    ensures { IfOk result (λ world. (numbers_of world).vars ≡ 2) }
{
    let mut disk = SimDisk::new(alloc, Layout::new(2, 2)?.end())?;
    format(&mut disk, 2, 2)?;
    let opened = World::open(alloc, disk, 2, 2, table, steps);
    match opened {
        Ok(world) => Ok(world),
        Err(refused) => Err(refused.0),
    }
}

/// A transaction that gives a variable a number.
fn write(alloc: Global, var: u16, number: i64) -> Result<Tx, Fault> {
    Ok(Tx::Seq(vec![in alloc; Tx::Put { reg: 0, number }, Tx::Write { var, reg: 0 }]?))
}

/// Begins a transaction, evaluates it to its end and settles it. Answers whether it was committed, or by which fault it was refused.
fn commit<D: Disk + Drop, T: Invariants + Drop, S: StoredSteps + Drop>(
    world: &mut World<D, T, S>,
    tx: Tx,
) -> Result<bool, Fault>
    ensures { numbers_of world.new ≡ numbers_of world.old }
{
    let _ = reply_or_fault(world.step(Event::Begin { slot: 0, tx }))?;
    for _ in 0..=MAX_TURNS {
        let turned = reply_or_fault(world.step(Event::Turn { slot: 0 }))?;
        if matches!(turned, Reply::Ended) {
            break;
        }
    }
    let settled = reply_or_fault(world.step(Event::Settle { slot: 0 }))?;
    Ok(matches!(settled, Reply::Settled(Settled::Committed { .. })))
}

/// A reply, or the fault by which the event was refused.
fn reply_or_fault(reply: Reply) -> Result<Reply, Fault>
    ensures { result ≡ reply_or_fault reply }
{
    match reply {
        Reply::Fault(fault) => Err(fault),
        other => Ok(other),
    }
}

/// What the two accounts have.
fn accounts<D: Disk + Drop, T: Invariants + Drop, S: StoredSteps + Drop>(
    world: &World<D, T, S>,
) -> (i64, i64)
    requires open { HasCore world.now }
    requires two { (numbers_of world.now).vars ≡ 2 }
{
    (world.value(0), world.value(1))
}
