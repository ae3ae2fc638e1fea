// Runs the jobs, and prints what they did.
ghost use Rattle.std.specs.Prelude.{◌≡◌, ◌≢◌, ◌≤◌, ◌+◌, ◌*◌, ◌∷◌, ◌⊎◌, ℕ, List, None, IfSome, IsSomeAnd, IfOk, OnOk, length};
ghost use Rattle.std.specs.Io.KnownBytes.{Appends};
ghost use Rattle.std.specs.Duration.{as_nanos};
ghost use Rattle.tmem_bench.specs.Printed.{head, line, lines_wanted, printed, PrintsTable};
ghost use Rattle.tmem_bench.specs.declared.device.Medium.TheVariants.{Memory};
ghost use Rattle.tmem_bench.specs.declared.figures.Work.TheVariants.{OnCore, OnStore, SyncTwice};
ghost use Rattle.tmem_bench.specs.declared.jobs.Act.TheVariants.{TwoReads};

use crate::device::{Medium, new_file, removed, two_syncs};
use crate::error::BenchError;
use crate::figures::{Figures, Line};
use crate::jobs::{Act, Callers, JOBS, Job, LOOSE_JOBS, SLOTS, VARS};
use crate::opening::open_again;
use crate::store::{On, StoreUse, with_bank};
use std::alloc::{AllocGlobal, Global};
use std::fs::{File, Files};
use std::io::Write;
use std::rt::Clock;
use std::sync::Wait;
use std::thread::Threads;
use std::time::Duration;
use tmem_disk::{Disk, SimDisk};
use tmem_journal::{Layout, format};

// The head of the table.
const HEAD: &str =
    "device  job                      callers  flusher         a second  flushes    baseline   ratio";

// How many lines there are below it: three of the core, each job in memory and in a file, those in memory alone, and that of the
// openings.
const LINES: usize = 2 * JOBS + LOOSE_JOBS + 4;

/// Which jobs are wanted, where, and for how long.
#[derive(Clone, Copy)]
pub struct JobsWanted<'a> {
    /// The path of their file.
    pub path: &'a str,
    /// For how many milliseconds each goes on.
    pub millis: u16,
    /// The one that is wanted, by its line in the table, from 1 to 48, or none for all. What is no line counts as the nearest one.
    pub job: Option<u16>,
}

impl JobsWanted<'_> {
    // For how long each job goes on.
    fn time(self) -> Duration
        ensures { as_nanos result ≡ self.entry.millis * 1_000_000 }
    {
        Duration::from_millis(u64::from(self.millis))
    }

    // For how long each loop of two syncs goes on: a quarter of that.
    fn sync_time(self) -> Duration
        ensures { as_nanos result ≡ self.entry.millis * 250_000 }
    {
        Duration::from_micros(u64::from(self.millis) * 250)
    }

    // Which lines are wanted: from this index in the table up to that one.
    fn indices(self) -> (usize, usize)
        ensures many { result.1 ≡ result.0 + lines_wanted self.entry.job }
        ensures most { result.1 ≤ 48 }
        ensures last { IfSome self.entry.job (λ job. 1 ≤ job → job ≤ 48 → result.1 ≡ job) }
    {
        match self.job {
            None => (0, LINES),
            Some(job) => {
                let index = usize::from(job).saturating_sub(1);
                let first = if index < LINES { index } else { LINES - 1 };
                (first, first + 1)
            }
        }
    }
}

/// Runs the jobs of a service: an add and transfers on the core alone, all jobs on a device in memory, and some there alone; all of
/// them in a file, which is made for each job and removed after it, also where the job fails, and openings of a file. Prints the head
/// of a table, and a line as each job ends that is wanted. Refused by `Device`, before anything is printed or touched, where something
/// has the path or no file can be made there.
pub fn run_jobs<R: Clock + Files<File = File> + AllocGlobal + Threads + Wait + Sync, W: Write>(
    rt: &R,
    wanted: JobsWanted<'_>,
    out: &mut W,
) -> Result<(), BenchError>
    ensures printed { OnOk result ((lines : List (List ℕ)) × (length lines ≡ lines_wanted wanted.entry.job)
        × Appends (W.contents out.old) (W.contents out.new) (printed (head ∷ lines))) }
{
    two_syncs(rt, Medium::File(wanted.path), wanted.sync_time())?;
    print_line(out, HEAD)?;
    let (first, end) = wanted.indices();
    for index in first..end {
        let text = line_at(rt, wanted, index)?;
        print_line(out, text.as_str())?;
    }
    Ok(())
}

// Prints a text and a line break.
fn print_line<W: Write>(out: &mut W, text: &str) -> Result<(), BenchError>
    ensures { OnOk result (Appends (W.contents out.old) (W.contents out.new) (line text.now)) }
{
    writeln!(out, "{text}").map_err(|_| BenchError::Output)
}

// A line of the table.
fn line_at<R: Clock + Files<File = File> + AllocGlobal + Threads + Wait + Sync>(
    rt: &R,
    wanted: JobsWanted<'_>,
    index: usize,
) -> Result<String, BenchError> {
    let (file, time, sync_time) = (Medium::File(wanted.path), wanted.time(), wanted.sync_time());
    match index {
        0 => line_of_core(rt, Act::Add, time),
        1 => line_of_core(rt, Act::Transfer, time),
        2 => line_of_core(rt, Act::WideMany, time),
        3..23 => line_of_job(rt, Medium::Memory, Job::at(index - 3, time), sync_time),
        23..27 => line_of_job(
            rt,
            Medium::Memory,
            Job::loose_at(index - 23, time),
            sync_time,
        ),
        27..47 => line_of_job(rt, file, Job::at(index - 27, time), sync_time),
        _ => line_of_openings(rt, wanted.path, time),
    }
}

// The text of a line.
fn text_of(alloc: Global, line: Line) -> Result<String, BenchError> {
    Ok(format!(in alloc; "{line}")?)
}

// Transactions on the core.
fn line_of_core<R: Clock + AllocGlobal + Threads + Wait + Sync>(
    rt: &R,
    act: Act,
    time: Duration,
) -> Result<String, BenchError> {
    let callers = Callers::Alone;
    let line = Line {
        device: "core",
        callers,
        had: run_on_core_alone(rt, Job { act, callers, time })?,
        baseline: None,
    };
    text_of(rt.alloc(), line)
}

// Runs a job on a new core.
fn run_on_core_alone<R: Clock + AllocGlobal + Threads + Wait + Sync>(
    rt: &R,
    job: Job,
) -> Result<Figures, BenchError>
    ensures { IfOk result (λ had. had.work ≡ OnCore job.act) }
{
    with_bank::<SimDisk, R>(rt, VARS, On::Core(job))
}

// A job on a device.
fn line_of_job<R: Clock + Files<File = File> + AllocGlobal + Threads + Wait + Sync>(
    rt: &R,
    medium: Medium<'_>,
    job: Job,
    sync_time: Duration,
) -> Result<String, BenchError> {
    let (had, baseline) = run_beside_syncs(rt, medium, job, sync_time)?;
    let line = Line {
        device: medium.name(),
        callers: job.callers,
        had,
        baseline,
    };
    text_of(rt.alloc(), line)
}

// Runs a job on a new device. One that makes a file durable runs between two loops of syncs, each for so long, with which it is compared.
fn run_beside_syncs<R: Clock + Files<File = File> + AllocGlobal + Threads + Wait + Sync>(
    rt: &R,
    medium: Medium<'_>,
    job: Job,
    sync_time: Duration,
) -> Result<(Figures, Option<Figures>), BenchError>
    ensures work { IfOk result (λ told. told.0.work ≡ OnStore job.act) }
    ensures compared { medium.entry ≢ Memory → job.act ≢ TwoReads → IfOk result (λ told. IsSomeAnd told.1 (λ other. other.work ≡ SyncTwice)) }
    ensures alone { (medium.entry ≡ Memory) ⊎ (job.act ≡ TwoReads) → IfOk result (λ told. told.1 ≡ None) }
{
    if medium.is_file() && job.act != Act::TwoReads {
        let before = two_syncs(rt, medium, sync_time)?;
        let had = run(rt, medium, job)?;
        let after = two_syncs(rt, medium, sync_time)?;
        return Ok((had, Some(before.with(after))));
    }
    Ok((run(rt, medium, job)?, None))
}

// Runs a job on a new device.
fn run<R: Clock + Files<File = File> + AllocGlobal + Threads + Wait + Sync>(
    rt: &R,
    medium: Medium<'_>,
    job: Job,
) -> Result<Figures, BenchError>
    ensures { IfOk result (λ had. had.work ≡ OnStore job.act) }
{
    let size = Layout::new(VARS, SLOTS)?.end();
    match medium {
        Medium::Memory => run_in(rt, SimDisk::new(rt.alloc(), size)?, job),
        Medium::File(path) => {
            let disk = new_file(rt, path, size)?;
            let had = run_in(rt, disk, job);
            removed(rt, path, had)
        }
    }
}

// Runs a job in a new store.
fn run_in<D: Disk + Drop + Send, R: Clock + AllocGlobal + Threads + Wait + Sync>(
    rt: &R,
    mut disk: D,
    job: Job,
) -> Result<Figures, BenchError>
    ensures { IfOk result (λ had. had.work ≡ OnStore job.act) }
{
    format(&mut disk, VARS, SLOTS)?;
    with_bank(rt, VARS, On::Store(disk, StoreUse::Serve(job)))
}

// Openings of a store, one after another.
fn line_of_openings<R: Clock + Files<File = File> + AllocGlobal + Threads + Wait + Sync>(
    rt: &R,
    path: &str,
    time: Duration,
) -> Result<String, BenchError> {
    let (had, baseline) = open_again(rt, path, time)?;
    let line = Line {
        device: "file",
        callers: Callers::Alone,
        had,
        baseline: Some(baseline),
    };
    text_of(rt.alloc(), line)
}
