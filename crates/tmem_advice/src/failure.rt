//! Why a store was not made, or not served to its end.
use std::alloc::{AllocError, AllocFailed};
use std::fmt::{self, Display};
use std::io::{self, ErrorKind};
use thiserror::Error;
use tmem_fault::{Fault, Name};
use tmem_init::InitError;
use tmem_shape::ShapeError;

/// Why a store was not made, or not served to its end. Its text is what the user is told.
#[derive(Debug, Drop, Error)]
pub enum StoreFailure {
    /// The file of the shape cannot be read.
    Unread,
    /// What it has is no shape.
    NoShape(ShapeError),
    /// The store was not made.
    NotMade(InitError),
    /// The numbers, the path or the file were refused before an opening, a call on the file failed, or there was not enough memory.
    Refused(Fault),
    /// This invariant always holds by the shape, but is not registered in the store. Nothing was read or printed.
    Unregistered(Name),
    /// The store was not opened, or serving it ended early, by this fault.
    Ended(Fault),
    /// What was told while it was served could not be printed.
    Output,
    /// A read of its input failed.
    Input,
}

impl fmt::Display for StoreFailure {
    fn fmt<W: fmt::Write>(&self, f: &mut fmt::Formatter<W>) -> fmt::Result {
        match self {
            StoreFailure::Unread => f.write_str("cannot read shape"),
            StoreFailure::NoShape(error) => write!(f, "bad shape: {error}"),
            StoreFailure::NotMade(error) => error.fmt(f),
            StoreFailure::Refused(fault) | StoreFailure::Ended(fault) => fault.fmt(f),
            StoreFailure::Unregistered(name) => {
                write!(
                    f,
                    "{name} always holds by the shape, but is not registered in the store"
                )
            }
            StoreFailure::Output => f.write_str("output failed"),
            StoreFailure::Input => f.write_str("input failed"),
        }
    }
}

impl From<ShapeError> for StoreFailure {
    fn from(error: ShapeError) -> StoreFailure {
        match error {
            ShapeError::Memory(_) => StoreFailure::Refused(Fault::Memory),
            error => StoreFailure::NoShape(error),
        }
    }
}

impl From<io::Error> for StoreFailure {
    fn from(error: io::Error) -> StoreFailure {
        if error.kind() == ErrorKind::OutOfMemory {
            StoreFailure::Refused(Fault::Memory)
        } else {
            StoreFailure::Unread
        }
    }
}

impl From<InitError> for StoreFailure {
    fn from(error: InitError) -> StoreFailure {
        StoreFailure::NotMade(error)
    }
}

impl From<Fault> for StoreFailure {
    fn from(fault: Fault) -> StoreFailure {
        StoreFailure::Refused(fault)
    }
}

impl From<AllocError> for StoreFailure {
    fn from(_error: AllocError) -> StoreFailure {
        StoreFailure::Refused(Fault::Memory)
    }
}

impl<T: Drop> From<AllocFailed<T>> for StoreFailure {
    fn from(_error: AllocFailed<T>) -> StoreFailure {
        StoreFailure::Refused(Fault::Memory)
    }
}
