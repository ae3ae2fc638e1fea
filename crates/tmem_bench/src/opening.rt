// Opens a store again and again.
ghost use Rattle.std.specs.Prelude.{◌≡◌, IfOk};
ghost use Rattle.tmem_bench.specs.declared.figures.Work.TheVariants.{Open, ReadTwice};

use crate::device::{new_file, removed};
use crate::error::{BenchError, now, since};
use crate::figures::{Figures, Work};
use crate::jobs::{MANY, SLOTS};
use crate::service::is_over;
use crate::store::{On, StoreUse, with_bank};
use std::alloc::AllocGlobal;
use std::fs::{self, File, Files};
use std::rt::Clock;
use std::sync::Wait;
use std::thread::Threads;
use std::time::{Duration, Instant};
use tmem_fault::Fault;
use tmem_file::FileDisk;
use tmem_journal::{Layout, format};

/// What openings of a store whose log is full came to in so much time, and what as many times two reads of its file came to.
pub fn open_again<R: Clock + Files<File = File> + AllocGlobal + Threads + Wait + Sync>(
    rt: &R,
    path: &str,
    time: Duration,
) -> Result<(Figures, Figures), BenchError>
    ensures opened { IfOk result (λ had. had.0.work ≡ Open) }
    ensures read { IfOk result (λ had. had.1.work ≡ ReadTwice) }
{
    let disk = new_file(rt, path, Layout::new(MANY, SLOTS)?.end())?;
    let had = fill_and_open(rt, disk, path, time);
    removed(rt, path, had)
}

// Fills the log of a new file, and then opens it and reads it, again and again.
fn fill_and_open<R: Clock + Files<File = File> + AllocGlobal + Threads + Wait + Sync>(
    rt: &R,
    mut disk: FileDisk,
    path: &str,
    time: Duration,
) -> Result<(Figures, Figures), BenchError>
    ensures opened { IfOk result (λ had. had.0.work ≡ Open) }
    ensures read { IfOk result (λ had. had.1.work ≡ ReadTwice) }
{
    format(&mut disk, MANY, SLOTS)?;
    with_bank(rt, MANY, On::Store(disk, StoreUse::FillLog))?;
    open_until(rt, path, now(rt)?, time)
}

// Opens a store and reads its file, again and again, until so much time is over.
fn open_until<R: Clock + Files<File = File> + AllocGlobal + Threads + Wait + Sync>(
    rt: &R,
    path: &str,
    start: Instant,
    time: Duration,
) -> Result<(Figures, Figures), BenchError>
    ensures opened { IfOk result (λ had. had.0.work ≡ Open) }
    ensures read { IfOk result (λ had. had.1.work ≡ ReadTwice) }
{
    let (mut opened, mut read) = (Figures::zero(Work::Open), Figures::zero(Work::ReadTwice));
    for _ in 0..u64::MAX {
        if is_over(rt, start, time) {
            break;
        }
        opened = opened.with(open_once(rt, path)?);
        read = read.with(read_twice(rt, path)?);
    }
    Ok((opened, read))
}

// Opens a store, and drops it.
fn open_once<R: Clock + Files<File = File> + AllocGlobal + Threads + Wait + Sync>(
    rt: &R,
    path: &str,
) -> Result<Figures, BenchError>
    ensures { IfOk result (λ had. had.work ≡ Open) }
{
    let start = now(rt)?;
    let disk = FileDisk::open(rt, path, u64::MAX)?;
    with_bank(rt, MANY, On::Store(disk, StoreUse::Open))?;
    Ok(Figures::once(Work::Open, since(rt, start)?))
}

// Reads a file, twice.
fn read_twice<R: Clock + Files<File = File> + AllocGlobal>(
    rt: &R,
    path: &str,
) -> Result<Figures, BenchError>
    ensures { IfOk result (λ had. had.work ≡ ReadTwice) }
{
    let start = now(rt)?;
    for _ in 0..2u8 {
        if fs::read(rt, path).is_err() {
            return Err(BenchError::Refused(Fault::Device));
        }
    }
    Ok(Figures::once(Work::ReadTwice, since(rt, start)?))
}
