//! Why a store was not served to the end of its input.
use tmem_desk::DeskFailure;
use tmem_fault::Name;

/// Why a store was not served to the end of its input.
#[derive(Debug, Drop)]
pub enum ServeError {
    /// This invariant always holds by what the store is served with, but is not registered in it. Nothing was read or printed.
    Unregistered(Name),
    /// The store was not opened, or serving it ended early.
    Ended(DeskFailure),
}
