//! What the tests of worlds share: devices, and transactions with their replies.
ghost use Rattle.std.specs.List.{All};
ghost use Rattle.tmem_event.specs.Events.{NamesAttempt};

use std::alloc::Global;
use std::process::Abort;
use tmem_disk::SimDisk;
use tmem_fault::{Fault, Name};
use tmem_invariants::Invariants;
use tmem_tree::{MAX_TURNS, StoredSteps, Tx};
use tmem_world::{Event, Layout, Reply, Settled, World, format};

/// What is answered to a transaction that was committed, and left this number in register 0 alone.
pub(super) fn committed(number: u64, first: i64) -> Reply {
    let mut registers = [0; 16];
    registers[0] = first;
    Reply::Settled(Settled::Committed { number, registers })
}

/// Puts a number in register 0, and writes it to a variable.
pub(super) fn write(alloc: Global, var: u16, number: i64) -> Result<Tx, Fault> {
    let mut all = Vec::new(alloc);
    all.push(Tx::Put { reg: 0, number })?;
    all.push(Tx::Write { var, reg: 0 })?;
    Ok(Tx::Seq(all))
}

/// A device of so many variables and slots that holds nothing yet.
pub(super) fn formatted(alloc: Global, vars: u16, slots: u16) -> Result<SimDisk, Fault> {
    let layout = Layout::new(vars, slots)?;
    let mut disk = SimDisk::new(alloc, layout.end())?;
    format(&mut disk, vars, slots)?;
    Ok(disk)
}

/// A device of four variables and four slots that holds nothing yet.
pub(super) fn fresh(alloc: Global) -> Result<SimDisk, Fault> {
    formatted(alloc, 4, 4)
}

/// A world over a device of four slots that holds nothing yet.
pub(super) fn opened<T: Invariants + Drop, S: StoredSteps + Drop>(
    alloc: Global,
    table: T,
    steps: S,
) -> Result<World<SimDisk, T, S>, Fault> {
    let vars = table.vars();
    let disk = formatted(alloc, vars, 4)?;
    match World::open(alloc, disk, vars, 4, table, steps) {
        Ok(world) => Ok(world),
        Err((fault, _disk)) => Err(fault),
    }
}

/// What is done with a world. It says nothing of what a step promises, so that what stands above it carries none of it.
pub(super) trait Played {
    /// Plays an event.
    fn step(&mut self, event: Event) -> Reply
        requires { NamesAttempt event };

    /// Plays a list of them.
    fn play_list(&mut self, events: Vec<Event>) -> Result<Vec<Reply>, Fault>
        requires { All NamesAttempt events.items };

    /// Whether a name is registered, where there is a core.
    fn knows(&self, name: &Name) -> Option<bool>;
}

impl<T: Invariants + Drop, S: StoredSteps + Drop> Played for World<SimDisk, T, S> {
    fn step(&mut self, event: Event) -> Reply {
        self.step(event)
    }

    fn play_list(&mut self, events: Vec<Event>) -> Result<Vec<Reply>, Fault> {
        self.play(events)
    }

    fn knows(&self, name: &Name) -> Option<bool> {
        if self.has_core() {
            Some(self.has(name))
        } else {
            None
        }
    }
}

/// Begins a transaction in attempt 0, evaluates it to its end, and settles it.
pub(super) fn commit<W: Played>(world: &mut W, tx: Tx) -> Reply {
    world.step(Event::Begin { slot: 0, tx });
    for _ in 0..=MAX_TURNS {
        let reply = world.step(Event::Turn { slot: 0 });
        if matches!(reply, Reply::Ended) {
            return world.step(Event::Settle { slot: 0 });
        }
    }
    Reply::Idle
}

/// The same, where this is to be its reply.
pub(super) fn commit_to<W: Played>(rt: &impl Abort, world: &mut W, tx: Tx, want: Reply) {
    must_be(rt, &commit(world, tx), &want);
}

/// Writes a number to a variable, where this is to be the number of the transaction.
pub(super) fn write_to<W: Played>(
    rt: &impl Abort,
    alloc: Global,
    world: &mut W,
    (var, value): (u16, i64),
    number: u64,
) -> Result<(), Fault> {
    let tx = write(alloc, var, value)?;
    commit_to(rt, world, tx, committed(number, value));
    Ok(())
}

fn must_be(rt: &impl Abort, had: &Reply, want: &Reply) {
    assert!(rt; had == want, "{had:?} where {want:?} was wanted");
}

/// Makes a step, whose reply is to be this.
pub(super) fn step_to<W: Played>(rt: &impl Abort, world: &mut W, event: Event, want: Reply)
    requires { NamesAttempt event }
{
    must_be(rt, &world.step(event), &want);
}
