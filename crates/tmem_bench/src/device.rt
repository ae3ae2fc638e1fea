// Where a store is kept.
ghost use Rattle.std.specs.Prelude.{◌≡◌, ◌≢◌, ◌≤◌, ◌↔◌, length, Ok, IfOk, IsTrue};
ghost use Rattle.tmem_bench.specs.declared.device.Medium.TheVariants.{Memory};
ghost use Rattle.tmem_bench.specs.declared.figures.Work.TheVariants.{SyncTwice};

use crate::error::{BenchError, now, since};
use crate::figures::{Figures, Work};
use std::alloc::AllocGlobal;
use std::fs::{self, File, Files};
use std::rt::Clock;
use std::time::{Duration, Instant};
use tmem_disk::{Disk, SimDisk};
use tmem_fault::Fault;
use tmem_file::{FileDisk, NewFile};

// About as many bytes as a batch of one transaction has.
const SYNCED_BYTES: usize = 32;

/// Where the device of a store is.
#[derive(Clone, Copy)]
pub enum Medium<'a> {
    Memory,
    /// In a file, which is not there before and is removed after.
    File(&'a str),
}

impl Medium<'_> {
    /// What a line of the table calls it.
    pub fn name(self) -> &'static str {
        match self {
            Medium::Memory => "memory",
            Medium::File(_) => "file",
        }
    }

    /// Whether it is a file.
    pub fn is_file(self) -> bool
        ensures { IsTrue result ↔ (self.entry ≢ Memory) }
    {
        match self {
            Medium::Memory => false,
            Medium::File(_) => true,
        }
    }
}

/// A new file of so many zeros. Refused by `Device` where something has the path.
pub fn new_file<R: Files<File = File> + AllocGlobal>(
    rt: &R,
    path: &str,
    size: u64,
) -> Result<FileDisk, Fault>
    ensures { IfOk result (λ disk. (⟦<FileDisk as Disk>⟧.view disk).capacity ≡ size) }
{
    NewFile::create(rt, path, size)?.give_name(rt)
}

/// What came of work on a file, once the file is removed, also where the work failed.
pub fn removed<R: Files<File = File>, X: Drop>(
    rt: &R,
    path: &str,
    had: Result<X, BenchError>,
) -> Result<X, BenchError>
    ensures { IfOk result (λ it. had ≡ Ok it) }
{
    let removed = fs::remove_file(rt, path);
    let had = had?;
    match removed {
        Ok(()) => Ok(had),
        Err(_) => Err(BenchError::Refused(Fault::Device)),
    }
}

/// What a new device does by two syncs alone, for so long: write, sync, write, sync, again and again.
pub fn two_syncs<R: Clock + Files<File = File> + AllocGlobal>(
    rt: &R,
    medium: Medium<'_>,
    time: Duration,
) -> Result<Figures, BenchError>
    ensures { IfOk result (λ had. had.work ≡ SyncTwice) }
{
    match medium {
        Medium::Memory => sync_on(rt, SimDisk::new(rt.alloc(), SYNCED_BYTES as u64)?, time),
        Medium::File(path) => {
            let disk = new_file(rt, path, SYNCED_BYTES as u64)?;
            let had = sync_on(rt, disk, time);
            removed(rt, path, had)
        }
    }
}

// What a device does by two syncs alone, for so long.
fn sync_on<D: Disk + Drop, R: Clock>(
    rt: &R,
    mut disk: D,
    time: Duration,
) -> Result<Figures, BenchError>
    requires { SYNCED_BYTES ≤ (D.view disk).capacity }
    ensures { IfOk result (λ had. had.work ≡ SyncTwice) }
{
    let start = now(rt)?;
    let mut had = Figures::zero(Work::SyncTwice);
    sync_until(rt, &mut disk, start, time, &mut had)?;
    had.time = since(rt, start)?;
    Ok(had)
}

// Writes and syncs as a flush does, until so much time is over.
fn sync_until<D: Disk, R: Clock>(
    rt: &R,
    disk: &mut D,
    start: Instant,
    time: Duration,
    had: &mut Figures,
) -> Result<(), BenchError>
    requires { SYNCED_BYTES ≤ (D.view disk.old).capacity }
    ensures { had.new.work ≡ had.old.work }
{
    for _ in 0..u64::MAX {
        put_twice(disk)?;
        had.operations = had.operations.saturating_add(1);
        if since(rt, start)? >= time {
            break;
        }
    }
    Ok(())
}

// Writes a batch, and then a byte.
fn put_twice<D: Disk>(disk: &mut D) -> Result<(), Fault>
    requires { SYNCED_BYTES ≤ (D.view disk.old).capacity }
    ensures { (D.view disk.new).capacity ≡ (D.view disk.old).capacity }
{
    let batch = [1; SYNCED_BYTES];
    put(disk, &batch)?;
    put(disk, &batch[..1])
}

// Writes at the start of a device, and syncs.
fn put<D: Disk>(disk: &mut D, bytes: &[u8]) -> Result<(), Fault>
    requires { length bytes.now ≤ (D.view disk.old).capacity }
    ensures { (D.view disk.new).capacity ≡ (D.view disk.old).capacity }
{
    if disk.write_at(0, bytes).is_err() || disk.sync().is_err() {
        return Err(Fault::Device);
    }
    Ok(())
}
