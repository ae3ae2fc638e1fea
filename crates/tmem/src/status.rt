//! What the user is told of what a command came to, and the status.
ghost use Rattle.std.specs.Prelude.{◌≡◌, ◌≤◌, false, if◌then◌else◌, IfErr, MatchResult, OnOk};
ghost use Rattle.clap.specs.Values.{kind_of};
ghost use Rattle.tmem_script.specs.Statuses.{status_of};
ghost use Rattle.tmem_script.specs.declared.failure.ProgramFailure.TheVariants.{Output};
ghost use Rattle.tmem_args.specs.CommandLine.{IsHelpOrVersion};

use clap::error::ErrorKind;
use std::fs::{File, Files};
use std::io::Write;
use tmem_advice::{StoreFailure, explain_check, explain_run, explain_store};
use tmem_args::{Asked, Invocation};
use tmem_run::{Flushed, Trace, flush_output};
use tmem_script::{ProgramFailure, WordsError, report};

/// Prints the failure of a run, if it failed, and answers the run's status. Tells more, if that is asked for.
pub(crate) fn conclude<E: Write>(
    rt: &(impl Files<File = File> + AllocGlobal),
    told: Invocation,
    trace: &Trace,
    outcome: Result<Flushed, ProgramFailure>,
    err: &mut E,
) -> u8
    ensures status { MatchResult outcome (λ _. result ≡ 0) (λ failure. result ≡ status_of failure) }
    ensures most { result ≤ 3 }
    ensures untold { told.entry.explains ≡ false → OnOk outcome (err.new ≡ err.old) }
{
    let status = tell(&outcome, err);
    if told.explains {
        explain_run(rt, told.asked, trace, &outcome, err);
    }
    status
}

// The same, and tells no more.
fn tell<E: Write>(outcome: &Result<Flushed, ProgramFailure>, err: &mut E) -> u8
    ensures status { MatchResult outcome.now (λ _. result ≡ 0) (λ failure. result ≡ status_of failure) }
    ensures most { result ≤ 3 }
    ensures untold { OnOk outcome.now (err.new ≡ err.old) }
{
    match outcome {
        Ok(_) => 0,
        Err(failure) => report(failure, err),
    }
}

/// Prints why a store was not made or served to its end, if it was not, and answers the status.
pub(crate) fn conclude_store<E: Write>(
    rt: &(impl Files<File = File> + AllocGlobal),
    told: Invocation,
    outcome: Result<(), StoreFailure>,
    err: &mut E,
) -> u8
    ensures status { MatchResult outcome (λ _. result ≡ 0) (λ _. result ≡ 1) }
    ensures untold { OnOk outcome (err.new ≡ err.old) }
{
    let Err(failure) = outcome else {
        return 0;
    };
    // Where this fails too, nobody is left to tell.
    let _ = writeln!(err, "tmem: {failure}");
    if told.explains {
        explain_store(rt, told.asked, &failure, err);
    }
    1
}

/// Answers the status of a check: 0 where a script is one, and 3 where it is none. Prints why there was none, where that failed.
pub(crate) fn conclude_check<E: Write>(
    rt: &(impl Files<File = File> + AllocGlobal),
    asked: Asked,
    outcome: Result<bool, ProgramFailure>,
    err: &mut E,
) -> u8
    ensures status { MatchResult outcome (λ fine. result ≡ (if fine then 0 else 3)) (λ failure. result ≡ status_of failure) }
    ensures most { result ≤ 3 }
    ensures untold { OnOk outcome (err.new ≡ err.old) }
{
    match outcome {
        Ok(true) => 0,
        Ok(false) => 3,
        Err(failure) => {
            let status = report(&failure, err);
            explain_check(rt, asked, &failure, err);
            status
        }
    }
}

/// Prints what the words are answered where nothing is to be done: what was asked for, or what is wrong with them.
/// Answers the status.
pub(crate) fn answer<W: Write, E: Write>(refusal: &clap::Error, out: &mut W, err: &mut E) -> u8
    ensures request { result ≤ 1 → IsHelpOrVersion (kind_of refusal.now) }
    ensures given { IsHelpOrVersion (kind_of refusal.now) → result ≤ 1 }
    ensures refused { ¬ IsHelpOrVersion (kind_of refusal.now) → result ≡ 2 }
    ensures most { result ≤ 2 }
    ensures untold { result ≡ 0 → err.new ≡ err.old }
    ensures unprinted { result ≡ 2 → out.new ≡ out.old }
{
    match refusal.kind() {
        ErrorKind::DisplayHelp | ErrorKind::DisplayVersion => tell(&print(refusal, out), err),
        ErrorKind::OutOfMemory => report(&ProgramFailure::Words(WordsError::Memory), err),
        _ => {
            // Where this fails too, nobody is left to tell.
            let _ = write!(err, "{refusal}");
            2
        }
    }
}

// Prints help or the version.
fn print<W: Write>(request: &clap::Error, out: &mut W) -> Result<Flushed, ProgramFailure>
    ensures { IfErr result (λ failure. failure ≡ Output) }
{
    write!(out, "{request}").map_err(|_| ProgramFailure::Output)?;
    flush_output(out)
}
