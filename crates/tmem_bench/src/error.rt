// Why the jobs end early.
use std::alloc::{AllocError, AllocFailed};
use std::rt::Clock;
use std::time::{Duration, Instant};
use tmem_fault::Fault;

/// Why the jobs ended before the last line.
#[derive(Debug, Drop)]
pub enum BenchError {
    /// The store or its device was refused, or memory.
    Refused(Fault),
    /// A line was not printed.
    Output,
    /// The clock was not read.
    Clock,
}

impl From<Fault> for BenchError {
    ghost use Rattle.std.specs.Prelude.{◌≡◌};
    ghost use Rattle.tmem_bench.specs.declared.error.BenchError.TheVariants.{Refused};

    ghost from_gives = { λ fault e. e ≡ Refused fault };

    fn from(fault: Fault) -> BenchError {
        BenchError::Refused(fault)
    }
}

impl From<AllocError> for BenchError {
    ghost use Rattle.std.specs.Prelude.{◌≡◌};
    ghost use Rattle.tmem_bench.specs.declared.error.BenchError.TheVariants.{Refused};
    ghost use Rattle.tmem_fault.specs.declared.fault.Fault.TheVariants as fault;

    ghost from_gives = { λ _ e. e ≡ Refused fault.Memory };

    fn from(_: AllocError) -> BenchError {
        BenchError::Refused(Fault::Memory)
    }
}

impl<T: Drop> From<AllocFailed<T>> for BenchError {
    ghost use Rattle.std.specs.Prelude.{◌≡◌};
    ghost use Rattle.tmem_bench.specs.declared.error.BenchError.TheVariants.{Refused};
    ghost use Rattle.tmem_fault.specs.declared.fault.Fault.TheVariants as fault;

    ghost from_gives = { λ _ e. e ≡ Refused fault.Memory };

    fn from(_: AllocFailed<T>) -> BenchError {
        BenchError::Refused(Fault::Memory)
    }
}

/// The time now.
pub fn now<R: Clock>(rt: &R) -> Result<Instant, BenchError> {
    Instant::now(rt).map_err(|_| BenchError::Clock)
}

/// How much time has passed.
pub fn since<R: Clock>(rt: &R, start: Instant) -> Result<Duration, BenchError> {
    start.elapsed(rt).map_err(|_| BenchError::Clock)
}
