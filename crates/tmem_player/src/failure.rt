//! Why a row is not played to its end.

use std::alloc::{AllocError, AllocFailed};
use std::{fmt, io};
use tmem_fault::Fault;
use tmem_forms::FormError;

/// Why a row was not played to its end. Its text is what the user is told.
#[derive(Clone, Copy)]
pub(crate) enum PlayFailure {
    /// The command line is empty, or has another word than `step` and `play`.
    Words,
    /// The input is no row.
    NoRow,
    /// There are events for a world that was not opened.
    NoSession,
    /// A device was not made or not formatted, a call had this fault, or memory did not suffice.
    Refused(Fault),
    /// The input was not read, or a line not printed.
    Io,
}

impl PlayFailure {
    /// The status that the program ends with: 3 where the row is bad, 2 where the words are, and else 1.
    pub(crate) fn status(&self) -> u8 {
        match self {
            PlayFailure::NoRow | PlayFailure::NoSession => 3,
            PlayFailure::Words => 2,
            PlayFailure::Refused(_) | PlayFailure::Io => 1,
        }
    }
}

impl fmt::Display for PlayFailure {
    fn fmt<W: fmt::Write>(&self, f: &mut fmt::Formatter<W>) -> fmt::Result {
        let text = match self {
            PlayFailure::Words => "say step or play",
            PlayFailure::NoRow => "bad row",
            PlayFailure::NoSession => "bad row: events for a world that was not opened",
            PlayFailure::Refused(fault) => return write!(f, "{fault}"),
            PlayFailure::Io => "input or output failed",
        };
        f.write_str(text)
    }
}

impl From<Fault> for PlayFailure {
    fn from(fault: Fault) -> PlayFailure {
        PlayFailure::Refused(fault)
    }
}

impl From<AllocError> for PlayFailure {
    fn from(_: AllocError) -> PlayFailure {
        PlayFailure::Refused(Fault::Memory)
    }
}

impl<T: Drop> From<AllocFailed<T>> for PlayFailure {
    fn from(_: AllocFailed<T>) -> PlayFailure {
        PlayFailure::Refused(Fault::Memory)
    }
}

impl From<FormError> for PlayFailure {
    fn from(error: FormError) -> PlayFailure {
        match error {
            FormError::Memory(_) => PlayFailure::Refused(Fault::Memory),
            FormError::NoForm => PlayFailure::NoRow,
        }
    }
}

impl From<io::Error> for PlayFailure {
    fn from(_: io::Error) -> PlayFailure {
        PlayFailure::Io
    }
}
