//! What a value is refused by.
use std::alloc::{AllocError, AllocFailed};

/// Why a value was not read.
#[derive(Debug, Drop)]
pub enum FormError {
    /// Memory did not suffice.
    Memory(AllocError),
    /// The value is the form of nothing that was asked for.
    NoForm,
}

impl From<AllocError> for FormError {
    ghost use Rattle.std.specs.Prelude.{◌≡◌, alloc_error};
    ghost use Rattle.tmem_forms.specs.declared.error.FormError.TheVariants.{Memory};

    ghost from_gives = { λ _ e. e ≡ Memory alloc_error };

    fn from(_: AllocError) -> FormError {
        FormError::Memory(AllocError)
    }
}

impl<T: Drop> From<AllocFailed<T>> for FormError {
    ghost use Rattle.std.specs.Prelude.{◌≡◌, alloc_error};
    ghost use Rattle.tmem_forms.specs.declared.error.FormError.TheVariants.{Memory};

    ghost from_gives = { λ _ e. e ≡ Memory alloc_error };

    fn from(_: AllocFailed<T>) -> FormError {
        FormError::Memory(AllocError)
    }
}
