//! Times the jobs of a service.
ghost use Rattle.std.specs.Prelude.{◌≡◌, IfErr, OnOk};
ghost use Rattle.tmem.specs.Commands.{IsWhyNotTimed, TimesJobs, failure_of};

use std::fs::{File, Files};
use std::io::Write;
use std::rt::Clock;
use std::sync::Wait;
use std::thread::Threads;
use tmem_args::{JOBS_STORE, Timing};
use tmem_bench::{BenchError, JobsWanted, run_jobs};
use tmem_run::{Flushed, flush_output};
use tmem_script::ProgramFailure;

// How many milliseconds a job goes on, where the words do not say it.
const MILLIS: u16 = 1000;

/// Times the jobs that are asked for on stores in memory and in a file, which must not be there yet, and prints what each came to.
pub(crate) fn time_jobs<W: Write>(
    rt: &(impl Files<File = File> + AllocGlobal + Threads + Wait + Clock + Sync),
    timing: Timing,
    out: &mut W,
) -> Result<Flushed, ProgramFailure>
    ensures timed { OnOk result (TimesJobs timing.entry.job (W.contents out.old) (W.contents out.new)) }
    ensures failed { IfErr result IsWhyNotTimed }
{
    run_bench(rt, timing, out)?;
    flush_output(out)
}

// Times the jobs that are asked for on stores in memory and in a file, which must not be there yet, and prints what each came to.
fn run_bench<R: Files<File = File> + AllocGlobal + Threads + Wait + Clock + Sync, W: Write>(
    rt: &R,
    timing: Timing<'_>,
    out: &mut W,
) -> Result<(), ProgramFailure>
    ensures timed { OnOk result (TimesJobs timing.entry.job (W.contents out.old) (W.contents out.new)) }
    ensures failed { IfErr result IsWhyNotTimed }
{
    let wanted = JobsWanted {
        path: timing.disk.unwrap_or(JOBS_STORE),
        millis: timing.millis.unwrap_or(MILLIS),
        job: timing.job,
    };
    match run_jobs(rt, wanted, out) {
        Ok(()) => Ok(()),
        Err(error) => Err(failure(error)),
    }
}

// What the user is told where the jobs ended early.
fn failure(error: BenchError) -> ProgramFailure
    ensures { result ≡ failure_of error }
{
    match error {
        BenchError::Refused(fault) => ProgramFailure::Refused(fault),
        BenchError::Output => ProgramFailure::Output,
        BenchError::Clock => ProgramFailure::Clock,
    }
}
