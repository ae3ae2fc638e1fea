//! The content of a new store.
ghost use Rattle.std.specs.Prelude.{◌≡◌, ◌↔◌, pos, length, IsTrue, IfOk, true, All};
ghost use Rattle.tmem_record.specs.Layout.{end_at};
ghost use Rattle.tmem_effect.specs.Names.{has_name};
ghost use Rattle.tmem_init.specs.Content.{IsContent, IsNewState};

use std::alloc::{AllocError, Global};
use tmem_disk::{Disk, SimDisk};
use tmem_effect::MAX_CHECKS;
use tmem_fault::{Fault, Name};
use tmem_invariants::Invariants;
use tmem_journal::format;
use tmem_parts::{Recovery, recovery_of};
use tmem_record::Layout;
use tmem_state::State;
use tmem_tree::{MAX_TURNS, StoredSteps, Tx};
use tmem_world::{Event, Reply, Settled, World};

/// The bytes of a new store of this layout: every variable is 0, and these invariants of the table are registered, by as few
/// transactions as may check them. Refused by `Broken` with the first of them that is false then, and by `Memory`.
pub fn content_of<T: Invariants + Drop, S: StoredSteps + Drop>(
    alloc: Global,
    layout: Layout,
    table: T,
    steps: S,
    always: &[Name],
) -> Result<Vec<u8>, Fault>
    requires { T.vars table ≡ layout.vars }
    ensures { IfOk result (λ bytes. IsContent layout.vars layout.slots always.now bytes.items) }
{
    let disk = registered(alloc, layout, table, steps, always)?;
    let bytes = bytes_of(alloc, disk, layout)?;
    let state = match recovery_of(alloc, &bytes, layout) {
        Recovery::Found(state) => state,
        Recovery::Refused(fault) => return Err(fault),
    };
    if is_new(&state, layout.vars, always) {
        Ok(bytes)
    } else {
        Err(Fault::Damaged)
    }
}

// A device in memory with a new store, in which these invariants are registered.
fn registered<T: Invariants + Drop, S: StoredSteps + Drop>(
    alloc: Global,
    layout: Layout,
    table: T,
    steps: S,
    names: &[Name],
) -> Result<SimDisk, Fault>
    requires { T.vars table ≡ layout.vars }
{
    let mut disk = SimDisk::new(alloc, layout.end())?;
    format(&mut disk, layout.vars, layout.slots)?;
    let mut world = match World::open(alloc, disk, layout.vars, layout.slots, table, steps) {
        Ok(world) => world,
        Err((fault, _disk)) => return Err(fault),
    };
    for some in names.chunks(MAX_CHECKS) {
        check(&mut world, checks_of(alloc, some)?)?;
    }
    match world.step(Event::Flush) {
        Reply::Fault(fault) => Err(fault),
        _ => Ok(world.into_disk()),
    }
}

// The transaction that checks these names.
fn checks_of(alloc: Global, names: &[Name]) -> Result<Tx, AllocError> {
    let mut row = Vec::with_capacity(alloc, names.len())?;
    for name in names {
        row.push(Tx::Check { name: *name })?;
    }
    Ok(Tx::Seq(row))
}

// Plays a transaction to its end. Refused by what its begin or its settling is refused by, and by `Broken` where an invariant is false.
fn check<D: Disk + Drop, T: Invariants + Drop, S: StoredSteps + Drop>(
    world: &mut World<D, T, S>,
    tx: Tx,
) -> Result<(), Fault> {
    let begun = world.step(Event::Begin { slot: 0, tx });
    failed(&begun)?;
    for _ in 0..=MAX_TURNS {
        let reply = world.step(Event::Turn { slot: 0 });
        if matches!(reply, Reply::Ended) {
            break;
        }
        failed(&reply)?;
    }
    let settled = world.step(Event::Settle { slot: 0 });
    failed(&settled)
}

// A reply that is no failure.
fn failed(reply: &Reply) -> Result<(), Fault> {
    match reply {
        Reply::Settled(Settled::Refused(name)) => Err(Fault::Broken(*name)),
        Reply::Fault(fault) => Err(*fault),
        _ => Ok(()),
    }
}

// The bytes of a store's layout on a device.
fn bytes_of<D: Disk + Drop>(alloc: Global, mut disk: D, layout: Layout) -> Result<Vec<u8>, Fault>
    ensures { IfOk result (λ bytes. length bytes.items ≡ end_at layout.vars layout.slots) }
{
    if disk.size() < layout.end() {
        return Err(Fault::Geometry);
    }
    let mut bytes = vec![in alloc; 0; layout.end() as usize]?;
    match disk.read(0, &mut bytes) {
        Ok(()) => Ok(bytes),
        Err(_) => Err(Fault::Device),
    }
}

// Whether every variable of a state is 0, and these names are registered and no others.
fn is_new(state: &State, vars: u16, names: &[Name]) -> bool
    ensures { IsTrue result ↔ IsNewState vars names.now state.now }
{
    let many = state.values().len() == usize::from(vars);
    many && are_zeros(state.values())
        && have_each(state.names(), names)
        && have_each(names, state.names())
}

fn are_zeros(values: &[i64]) -> bool
    ensures { IsTrue result ↔ All (λ value. value ≡ pos 0) values.now }
{
    values.iter().all(|value| *value == 0)
}

// Whether each of some names is among these.
fn have_each(names: &[Name], some: &[Name]) -> bool
    ensures { IsTrue result ↔ All (λ name. has_name names.now name ≡ true) some.now }
{
    some.iter().all(|name| is_among(names, name))
}

// Whether a name is among these.
fn is_among(names: &[Name], name: &Name) -> bool
    ensures { result ≡ has_name names.now name.now }
{
    names.contains(name)
}
