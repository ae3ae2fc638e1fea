//! Why a store was not shown.
use tmem_fault::Fault;

/// Why not all was printed.
#[derive(Drop)]
pub enum ShowError {
    /// There was no memory for what was read.
    Refused(Fault),
    /// The output failed.
    Output,
}
