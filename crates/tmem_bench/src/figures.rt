// What was counted, and the line of it.
ghost use Rattle.std.specs.Prelude.{◌≡◌, ◌+◌, ◌-◌, ◌^◌, min};
ghost use Rattle.std.specs.Duration.{as_nanos, max_nanos};

use crate::jobs::{Act, Callers};
use std::fmt;
use std::num::nearest_u64_to_f64;
use std::time::Duration;

/// What was done.
#[derive(Clone, Copy, PartialEq, Eq)]
pub enum Work {
    /// Transactions on the core alone.
    OnCore(Act),
    /// Transactions on a store.
    OnStore(Act),
    /// The log of a store was filled.
    FillLog,
    /// A store was opened.
    Open,
    /// A device was synced twice, each time behind a write.
    SyncTwice,
    /// A file was read twice.
    ReadTwice,
}

impl Work {
    /// What a line of the table calls it.
    pub fn name(self) -> &'static str {
        match self {
            Work::OnCore(act) => act.name_on_core(),
            Work::OnStore(act) => act.name(),
            Work::FillLog => "fill",
            Work::Open => "open 1024 variables",
            Work::SyncTwice => "two syncs",
            Work::ReadTwice => "two reads of the file",
        }
    }
}

/// How often something was done, in how many flushes, and how long that took.
#[derive(Clone, Copy)]
pub struct Figures {
    pub work: Work,
    pub operations: u64,
    pub flushes: u64,
    pub time: Duration,
}

impl Figures {
    /// Nothing yet.
    pub fn zero(work: Work) -> Figures
        ensures work { result.work ≡ work }
        ensures zero { (result.operations ≡ 0) × (result.flushes ≡ 0) × (as_nanos result.time ≡ 0) }
    {
        Figures {
            work,
            operations: 0,
            flushes: 0,
            time: Duration::ZERO,
        }
    }

    /// Of one that took so long.
    pub fn once(work: Work, time: Duration) -> Figures
        ensures { (result.work ≡ work) × (result.operations ≡ 1) × (result.flushes ≡ 0) × (result.time ≡ time) }
    {
        Figures {
            work,
            operations: 1,
            flushes: 0,
            time,
        }
    }

    /// Both together, of the same work.
    pub fn with(self, other: Figures) -> Figures
        requires { other.work ≡ self.work }
        ensures work { result.work ≡ self.work }
        ensures operations { result.operations ≡ min (self.operations + other.operations) (2 ^ 64 - 1) }
        ensures flushes { result.flushes ≡ min (self.flushes + other.flushes) (2 ^ 64 - 1) }
        ensures time { as_nanos result.time ≡ min (as_nanos self.time + as_nanos other.time) max_nanos }
    {
        Figures {
            work: self.work,
            operations: self.operations.saturating_add(other.operations),
            flushes: self.flushes.saturating_add(other.flushes),
            time: self.time.saturating_add(other.time),
        }
    }

    // How much is done in a second.
    fn rate(self) -> f64 {
        nearest_u64_to_f64(self.operations) / self.time.as_secs_f64()
    }
}

/// What a job did. Its baseline is what the same file did in the same minute: two syncs alone, before the job and after it; or for
/// openings, two reads of it. In memory, and for reads, there is none.
#[derive(Drop)]
pub struct Line {
    pub device: &'static str,
    pub callers: Callers,
    pub had: Figures,
    pub baseline: Option<Figures>,
}

impl fmt::Display for Line {
    fn fmt<W: fmt::Write>(&self, f: &mut fmt::Formatter<W>) -> fmt::Result {
        write_job(f, self.device, self.had.work.name(), self.callers)?;
        write!(f, "{:>15.0}{:>9}", self.had.rate(), self.had.flushes)?;
        write_baseline(f, self.had, self.baseline)
    }
}

fn write_job<W: fmt::Write>(
    f: &mut fmt::Formatter<W>,
    device: &str,
    work: &str,
    callers: Callers,
) -> fmt::Result {
    let (callers, flusher) = (callers.count(), callers.flusher());
    write!(f, "{device:<8}{work:<25}{callers:>7}  {flusher:<9}")
}

fn write_baseline<W: fmt::Write>(
    f: &mut fmt::Formatter<W>,
    had: Figures,
    baseline: Option<Figures>,
) -> fmt::Result {
    match baseline {
        Some(other) => {
            let ratio = had.rate() / other.rate();
            write!(f, "{:>12.0}{ratio:>8.2}", other.rate())
        }
        None => f.write_str("           -       -"),
    }
}
