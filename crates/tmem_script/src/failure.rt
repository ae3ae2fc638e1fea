//! Why a run ends before its last line, and with which status.
ghost use Rattle.std.specs.Prelude.{◌≡◌, ◌≤◌, OnOk};
ghost use Rattle.std.specs.Io.KnownBytes.{Appends};
ghost use Rattle.tmem_script.specs.Statuses.{status_of, failure_line};

use crate::script::ScriptError;
use std::fmt::{self, Display};
use std::io::{self, Write};
use thiserror::Error;
use tmem_fault::Fault;

/// Why the program did not do all that it was asked. Its text is what the user is told.
#[derive(Debug, Drop, Error)]
pub enum ProgramFailure {
    Script(ScriptError),
    /// The device, its format or its opening was refused, or memory for the way there.
    Refused(Fault),
    Output,
    /// The clock was not read.
    Clock,
    /// The words of the command line were not read.
    Words(WordsError),
}

impl fmt::Display for ProgramFailure {
    ghost use Rattle.std.specs.Prelude.{Some};
    ghost use Rattle.tmem_script.specs.Statuses.{failure_text};

    ghost output = { λ failure. Some (failure_text failure) };

    fn fmt<W: fmt::Write>(&self, f: &mut fmt::Formatter<W>) -> fmt::Result {
        match self {
            ProgramFailure::Script(error) => error.fmt(f),
            ProgramFailure::Refused(fault) => fault.fmt(f),
            ProgramFailure::Output => f.write_str("output failed"),
            ProgramFailure::Clock => f.write_str("no clock"),
            ProgramFailure::Words(error) => error.fmt(f),
        }
    }
}

/// Why the words of the command line were not read. Its text is what the user is told.
#[derive(Clone, Copy, Debug, PartialEq, Eq, Error)]
pub enum WordsError {
    NotText,
    Memory,
}

impl fmt::Display for WordsError {
    ghost use Rattle.std.specs.Prelude.{Some};
    ghost use Rattle.tmem_script.specs.Statuses.{words_error_text};

    ghost output = { λ error. Some (words_error_text error) };

    fn fmt<W: fmt::Write>(&self, f: &mut fmt::Formatter<W>) -> fmt::Result {
        match self {
            WordsError::NotText => f.write_str("the command line is not UTF-8"),
            WordsError::Memory => f.write_str("not enough memory for the command line"),
        }
    }
}

impl From<Fault> for ProgramFailure {
    ghost use Rattle.std.specs.Prelude.{◌≡◌};
    ghost use Rattle.tmem_script.specs.declared.failure.ProgramFailure.TheVariants.{Refused};

    ghost from_gives = { λ fault failure. failure ≡ Refused fault };

    fn from(fault: Fault) -> ProgramFailure {
        ProgramFailure::Refused(fault)
    }
}

impl From<ScriptError> for ProgramFailure {
    ghost use Rattle.std.specs.Prelude.{◌≡◌};
    ghost use Rattle.tmem_script.specs.declared.failure.ProgramFailure.TheVariants.{Script};

    ghost from_gives = { λ error failure. failure ≡ Script error };

    fn from(error: ScriptError) -> ProgramFailure {
        ProgramFailure::Script(error)
    }
}

impl ProgramFailure {
    ghost use Rattle.tmem_script.specs.Statuses.{status_of};

    // The status that the program ends with: 3 where there was no script to play, 2 where there were
    // no words, and else 1.
    fn status(&self) -> u8
        ensures status { result ≡ status_of self.now }
        ensures most { result ≤ 3 }
    {
        match self {
            ProgramFailure::Script(ScriptError::Unreadable | ScriptError::NoScript) => 3,
            ProgramFailure::Words(_) => 2,
            ProgramFailure::Script(ScriptError::Memory(_))
            | ProgramFailure::Refused(_)
            | ProgramFailure::Output
            | ProgramFailure::Clock => 1,
        }
    }
}

/// Prints a failure, and answers its status.
pub fn report<E: Write>(failure: &ProgramFailure, err: &mut E) -> u8
    ensures status { result ≡ status_of failure.now }
    ensures most { result ≤ 3 }
{
    // Where this fails too, nobody is left to tell.
    let _ = tell(failure, err);
    failure.status()
}

// Prints what the user is told of a failure.
fn tell<E: Write>(failure: &ProgramFailure, err: &mut E) -> io::Result<()>
    ensures { OnOk result (Appends (E.contents err.old) (E.contents err.new) (failure_line failure.now)) }
{
    writeln!(err, "tmem: {failure}")
}
