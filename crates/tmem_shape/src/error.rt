//! Why the text of a shape was not read.
use crate::place::ShapePlace;
use crate::why::ShapeFlaw;
use std::alloc::{AllocError, AllocFailed};
use std::fmt;
use thiserror::Error;
use tmem_fault::Fault;

/// Why a shape was not read.
#[derive(Debug, Drop, Error)]
pub enum ShapeError {
    /// Memory did not suffice.
    Memory(AllocError),
    /// The text is not a shape: what is wrong, and where.
    NoShape { why: ShapeFlaw, at: ShapePlace },
}

impl fmt::Display for ShapeError {
    fn fmt<W: fmt::Write>(&self, f: &mut fmt::Formatter<W>) -> fmt::Result {
        match self {
            ShapeError::Memory(_) => write!(f, "{}", Fault::Memory),
            ShapeError::NoShape {
                why,
                at: ShapePlace::Whole,
            } => write!(f, "{why}"),
            ShapeError::NoShape { why, at } => write!(f, "{at}: {why}"),
        }
    }
}

impl From<AllocError> for ShapeError {
    ghost use Rattle.std.specs.Prelude.{◌≡◌, alloc_error};
    ghost use Rattle.tmem_shape.specs.declared.error.ShapeError.TheVariants.{Memory};

    ghost from_gives = { λ _ e. e ≡ Memory alloc_error };

    fn from(_: AllocError) -> ShapeError {
        ShapeError::Memory(AllocError)
    }
}

impl<T: Drop> From<AllocFailed<T>> for ShapeError {
    ghost use Rattle.std.specs.Prelude.{◌≡◌, alloc_error};
    ghost use Rattle.tmem_shape.specs.declared.error.ShapeError.TheVariants.{Memory};

    ghost from_gives = { λ _ e. e ≡ Memory alloc_error };

    fn from(_: AllocFailed<T>) -> ShapeError {
        ShapeError::Memory(AllocError)
    }
}
