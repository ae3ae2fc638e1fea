//! A store at its limits: 1024 variables, 64 log slots, 64 records in a batch, and 64 invariants over sixteen variables each, all of
//! them registered. It is found again by each call that opens one. And the batch of 64 records by itself.
ghost use Rattle.std.specs.Prelude.{◌≡◌, length};
ghost use Rattle.tmem_world_tests.specs.Programs.{is_last_not_negative};

use super::names::{Use, add, commit_all, has_all, has_none, numbered, variables_of};
use super::worlds::{Played, commit_to, formatted, step_to, write, write_to};
use std::alloc::Global;
use std::process::Abort;
use std::test::Fail;
use tmem_disk::SimDisk;
use tmem_effect::Effect;
use tmem_fault::Fault;
use tmem_front::OpenedFront;
use tmem_invariants::Invariants;
use tmem_record::{Decoded, SLOT_BODY_BYTES, decode_batch, encode_batch};
use tmem_state::{Batch, Version};
use tmem_tables::Table;
use tmem_tree::{Steps, StoredSteps};
use tmem_world::{Event, Reply, Settled, World};

const VARS: u16 = 1024;

const SLOTS: u16 = 64;

/// What a world or a front does on the device that the one before it left.
#[derive(Clone, Copy)]
enum Life {
    /// Registers 64 names and writes, until 64 records wait, flushes them, and opens the device again.
    Fills,
    /// Finds them in the log. After a checkpoint it finds them in an image.
    Checkpoints,
    /// Retires all names, and opens the device again.
    Retires,
    /// Finds them as a front.
    IsFront,
}

/// Registers 64 names, and commits until 64 records wait. What one of the invariants forbids is refused by the first of them.
fn fill<W: Played>(rt: &impl Abort, alloc: Global, world: &mut W) -> Result<(), Fault> {
    commit_all(rt, alloc, world, 0, Use::Registers)?;
    let refused = Settled::Refused(numbered(0)?);
    commit_to(rt, world, write(alloc, 15, -1)?, Reply::Settled(refused));
    for number in 8..64u32 {
        write_to(rt, alloc, world, (15, i64::from(number)), u64::from(number))?;
    }
    Ok(())
}

/// Plays, as one list, a flush of the 64 records and what finds them again.
fn flush_and_reopen<W: Played>(rt: &impl Abort, alloc: Global, world: &mut W) -> Result<(), Fault> {
    let events = vec![in alloc; Event::Flush, Event::Reopen, Event::Look]?;
    let had = world.play_list(events)?;
    let want = [Reply::Durable(64), Reply::Opened(64), Reply::Looked(64)];
    assert!(rt; had.as_slice() == want.as_slice());
    assert!(rt; has_all(world)?);
    Ok(())
}

/// Finds them, and again after a checkpoint.
fn checkpoint_and_reopen<W: Played>(
    rt: &impl Abort,
    alloc: Global,
    world: &mut W,
) -> Result<(), Fault> {
    step_to(rt, world, Event::Look, Reply::Looked(64));
    assert!(rt; has_all(world)?);
    step_to(rt, world, Event::Checkpoint, Reply::Checkpointed);
    step_to(rt, world, Event::Reopen, Reply::Opened(64));
    assert!(rt; has_all(world)?);
    write_to(rt, alloc, world, (0, 1), 64)
}

/// Retires all names, so that nothing is tested any more, makes that durable, and finds no name again.
fn retire_and_reopen<W: Played>(
    rt: &impl Abort,
    alloc: Global,
    world: &mut W,
) -> Result<(), Fault> {
    commit_all(rt, alloc, world, 64, Use::Retires)?;
    write_to(rt, alloc, world, (15, -1), 72)?;
    step_to(rt, world, Event::Flush, Reply::Durable(73));
    step_to(rt, world, Event::Reopen, Reply::Opened(73));
    assert!(rt; has_none(world)?);
    Ok(())
}

/// Plays a life in a world.
fn play<W: Played>(rt: &impl Abort, alloc: Global, world: &mut W, life: Life) -> Result<(), Fault> {
    match life {
        Life::Fills => {
            fill(rt, alloc, world)?;
            flush_and_reopen(rt, alloc, world)
        }
        Life::Retires => retire_and_reopen(rt, alloc, world),
        _ => checkpoint_and_reopen(rt, alloc, world),
    }
}

/// Opens the device as a world, plays a life there, and hands the device back.
fn play_on<T: Invariants + Drop, S: StoredSteps + Drop>(
    rt: &impl Abort,
    alloc: Global,
    disk: SimDisk,
    table: T,
    steps: S,
    life: Life,
) -> Result<SimDisk, Fault>
    requires { T.vars table ≡ VARS }
{
    let mut world = open_world(alloc, disk, table, steps)?;
    play(rt, alloc, &mut world, life)?;
    Ok(world.into_disk())
}

// Opens the store as a world.
fn open_world<T: Invariants + Drop, S: StoredSteps + Drop>(
    alloc: Global,
    disk: SimDisk,
    table: T,
    steps: S,
) -> Result<World<SimDisk, T, S>, Fault>
    requires { T.vars table ≡ VARS }
{
    match World::open(alloc, disk, VARS, SLOTS, table, steps) {
        Ok(world) => Ok(world),
        Err((fault, _disk)) => Err(fault),
    }
}

/// Finds the store as a front. The device is gone with it, and one of no byte is handed back.
fn find_by_front<T: Invariants + Drop, S: StoredSteps + Drop>(
    alloc: Global,
    disk: SimDisk,
    table: T,
    steps: S,
) -> Result<SimDisk, Fault>
    requires { T.vars table ≡ VARS }
{
    match OpenedFront::open(alloc, disk, VARS, SLOTS, table, steps) {
        Ok(_front) => SimDisk::new(alloc, 0),
        Err((fault, _disk)) => Err(fault),
    }
}

/// Plays a life of any kind.
fn play_life<T: Invariants + Drop, S: StoredSteps + Drop>(
    rt: &impl Abort,
    alloc: Global,
    disk: SimDisk,
    table: T,
    steps: S,
    life: Life,
) -> Result<SimDisk, Fault>
    requires { T.vars table ≡ VARS }
{
    match life {
        Life::IsFront => find_by_front(alloc, disk, table, steps),
        other => play_on(rt, alloc, disk, table, steps, other),
    }
}

/// Plays a life over 64 invariants, each of which is that the last of sixteen variables is not negative.
fn play_over_all(
    rt: &impl Abort,
    alloc: Global,
    disk: SimDisk,
    life: Life,
) -> Result<SimDisk, Fault> {
    let mut entries = Vec::new(alloc);
    for n in 0..64 {
        let last = Box::new(
            alloc,
            |values: &[i64]| -> bool
                requires { length values.now ≡ 16 }
                ensures { result ≡ is_last_not_negative values.now }
            { values[15] >= 0 },
        )?;
        add(&mut entries, n, variables_of(alloc, 0)?, last)?;
    }
    let table = Table::of(alloc, entries, VARS)?;
    let steps = Steps::of(Vec::new(alloc))?;
    play_life(rt, alloc, disk, table, steps, life)
}

/// Plays them, one after another, on a new device.
fn play_lives(rt: &impl Abort, alloc: Global, lives: &[Life]) -> Result<(), Fault> {
    let mut disk = formatted(alloc, VARS, SLOTS)?;
    for life in lives {
        disk = play_over_all(rt, alloc, disk, *life)?;
    }
    Ok(())
}

// at: 1024 variables, 64 slots, 64 records, 64 names, 64 invariants, 16 footprint variables, 8 checks, 8 retirements
#[test]
fn a_store_at_its_limits_is_found_in_the_log_and_in_an_image(rt: HostRuntime) -> Result<(), Fail> {
    let lives = [Life::Fills, Life::Checkpoints, Life::Retires];
    play_lives(&rt, rt.alloc(), &lives)?;
    Ok(())
}

// at: 1024 variables, 64 slots, 64 records, 64 names, 64 invariants, 16 footprint variables
#[test]
fn a_store_at_its_limits_is_found_by_a_front(rt: HostRuntime) -> Result<(), Fail> {
    play_lives(&rt, rt.alloc(), &[Life::Fills, Life::IsFront])?;
    Ok(())
}

/// A batch of 64 records, each of which writes its own number to another one of the last variables.
fn batch_of_64(alloc: Global) -> Result<Option<Batch>, Fault> {
    let mut batch = Batch::new(alloc)?;
    for n in 0..64u16 {
        let mut effect = Effect::new();
        effect.writes.put(VARS - 1 - n, i64::from(n));
        if effect.is_empty() || !batch.push(&effect) {
            return Ok(None);
        }
    }
    Ok(Some(batch))
}

/// Whether the bytes of that batch, of generation 1 and with number 0, are as many as they should be, and are read again.
fn is_read_again(alloc: Global) -> Result<bool, Fault> {
    let Some(batch) = batch_of_64(alloc)? else {
        return Ok(false);
    };
    if batch.effects().is_empty() {
        return Ok(false);
    }
    let mut buffer = [0; SLOT_BODY_BYTES];
    let length = encode_batch(&batch, 1, 0, &mut buffer);
    match decode_batch(alloc, &buffer[..length], VARS, Version::Two)? {
        Some(decoded) => Ok(length == 850 && is_batch_of_64(&decoded)),
        None => Ok(false),
    }
}

fn is_batch_of_64(decoded: &Decoded) -> bool {
    let mut n = 0u16;
    for effect in decoded.effects.effects() {
        if n > 63 || effect.writes.as_slice() != [(VARS - 1 - n, i64::from(n))].as_slice() {
            return false;
        }
        n += 1;
    }
    (decoded.generation, decoded.first, decoded.length, n) == (1, 0, 850, 64)
}

// at: 1024 variables, 64 records
#[test]
fn a_batch_of_64_records_over_1024_variables_is_read_again(rt: HostRuntime) -> Result<(), Fail> {
    assert!(rt; is_read_again(rt.alloc())?);
    Ok(())
}
