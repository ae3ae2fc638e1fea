//! Why a row is not served, or calls are not all made.

use std::alloc::{AllocError, AllocFailed};
use std::fmt;
use std::io::{self, ErrorKind};
use tmem_fault::Fault;

/// Why a row was not served, or calls were not all made. Its text is what the user is told.
#[derive(Clone, Copy)]
pub(crate) enum CallFailure {
    /// The command line is empty, or has another word than `serve`, `lines` and `refusals`.
    Words,
    /// The input is no row.
    NoRow,
    /// A device was not made or not formatted, a call had this fault, or memory did not suffice.
    Refused(Fault),
    /// The input was not read, or a line not printed.
    Io,
}

impl CallFailure {
    /// The status that the program ends with: 3 where the row is bad, 2 where the words are, and else 1.
    pub(crate) fn status(&self) -> u8 {
        match self {
            CallFailure::NoRow => 3,
            CallFailure::Words => 2,
            CallFailure::Refused(_) | CallFailure::Io => 1,
        }
    }
}

impl fmt::Display for CallFailure {
    fn fmt<W: fmt::Write>(&self, f: &mut fmt::Formatter<W>) -> fmt::Result {
        let text = match self {
            CallFailure::Words => "say serve, lines or refusals",
            CallFailure::NoRow => "bad row",
            CallFailure::Refused(fault) => return fmt::Display::fmt(fault, f),
            CallFailure::Io => "input or output failed",
        };
        f.write_str(text)
    }
}

impl From<Fault> for CallFailure {
    fn from(fault: Fault) -> CallFailure {
        CallFailure::Refused(fault)
    }
}

impl From<AllocError> for CallFailure {
    fn from(_: AllocError) -> CallFailure {
        CallFailure::Refused(Fault::Memory)
    }
}

impl<T: Drop> From<AllocFailed<T>> for CallFailure {
    fn from(_: AllocFailed<T>) -> CallFailure {
        CallFailure::Refused(Fault::Memory)
    }
}

impl From<io::Error> for CallFailure {
    fn from(error: io::Error) -> CallFailure {
        match error.kind() {
            ErrorKind::OutOfMemory => CallFailure::Refused(Fault::Memory),
            _ => CallFailure::Io,
        }
    }
}
