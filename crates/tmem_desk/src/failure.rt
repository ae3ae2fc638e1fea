// Why serving ended early.
use std::io;
use tmem_fault::Fault;

/// Why serving ended early.
#[derive(Debug, Drop)]
pub enum DeskFailure {
    /// The store cannot go on, or there was no memory.
    Fault(Fault),
    /// What was told could not be printed.
    Output,
}

impl From<Fault> for DeskFailure {
    ghost use Rattle.std.specs.Prelude.{◌≡◌};
    ghost use Rattle.tmem_desk.specs.declared.failure.DeskFailure.TheVariants as failure;

    ghost from_gives = { λ fault e. e ≡ failure.Fault fault };

    fn from(fault: Fault) -> DeskFailure {
        DeskFailure::Fault(fault)
    }
}

impl From<io::Error> for DeskFailure {
    ghost use Rattle.std.specs.Prelude.{◌≡◌};
    ghost use Rattle.tmem_desk.specs.declared.failure.DeskFailure.TheVariants.{Output};

    ghost from_gives = { λ _ e. e ≡ Output };

    fn from(_: io::Error) -> DeskFailure {
        DeskFailure::Output
    }
}
