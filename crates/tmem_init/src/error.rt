//! Why no store was made.
use std::alloc::AllocError;
use std::{fmt, io};
use thiserror::Error;
use tmem_fault::Fault;

/// Why no store was made. Its text is what the user is told.
#[derive(Clone, Copy, Debug, Error)]
pub enum InitError {
    /// Memory was refused, a call of the device failed, or an invariant that is always to hold is false where every variable is 0.
    Refused(Fault),
    /// Something has the store's path.
    StoreIsThere,
    /// Something has the path of the text beside the store, and it is not this text.
    TextIsThere,
    /// What has that path cannot be read, for this reason.
    TextUnread(io::Error),
    /// The file or the block device holds something else than zeros, and than what making this store would write there.
    NotBlank,
}

impl fmt::Display for InitError {
    fn fmt<W: fmt::Write>(&self, f: &mut fmt::Formatter<W>) -> fmt::Result {
        let text = match self {
            InitError::Refused(fault) => return write!(f, "{fault}"),
            InitError::StoreIsThere => "something is there already",
            InitError::TextIsThere => "another shape is there already",
            InitError::TextUnread(why) => {
                return write!(f, "cannot read the shape that is there: {why}");
            }
            InitError::NotBlank => "the device is not blank",
        };
        f.write_str(text)
    }
}

impl From<Fault> for InitError {
    ghost use Rattle.std.specs.Prelude.{◌≡◌};
    ghost use Rattle.tmem_init.specs.declared.error.InitError.TheVariants.{Refused};

    ghost from_gives = { λ fault error. error ≡ Refused fault };

    fn from(fault: Fault) -> InitError {
        InitError::Refused(fault)
    }
}

impl From<AllocError> for InitError {
    ghost use Rattle.std.specs.Prelude.{◌≡◌};
    ghost use Rattle.tmem_fault.specs.declared.fault.Fault.TheVariants.{Memory};
    ghost use Rattle.tmem_init.specs.declared.error.InitError.TheVariants.{Refused};

    ghost from_gives = { λ _ error. error ≡ Refused Memory };

    fn from(_error: AllocError) -> InitError {
        InitError::Refused(Fault::Memory)
    }
}
