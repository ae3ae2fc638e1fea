// The calls of a device in memory that have failed, and those that are armed to fail.
ghost use Rattle.std.specs.Prelude.{◌≡◌, Some};
ghost use Rattle.tmem_disk.specs.Disk.{after_fault};
ghost use Rattle.tmem_disk.specs.Failing.{armed_for, is_next, one_nearer, armed_after};

use crate::DeviceFault;

/// How many calls have failed, and which kind of call failed last. A count at the greatest number stays there.
#[derive(Clone, Copy)]
pub(crate) struct Failures {
    pub(crate) count: u64,
    pub(crate) last: Option<DeviceFault>,
}

impl Failures {
    /// One failed call more.
    pub(crate) fn note(&mut self, fault: DeviceFault)
        ensures count { self.new.count ≡ after_fault self.old.count }
        ensures last { self.new.last ≡ Some fault }
    {
        *self = Failures {
            count: self.count.saturating_add(1),
            last: Some(fault),
        };
    }
}

/// The calls that are armed to fail, one of each kind at most: how many calls of its kind come before it.
#[derive(Clone, Copy)]
pub(crate) struct ArmedFailures {
    pub(crate) read: Option<u64>,
    pub(crate) write: Option<u64>,
    pub(crate) sync: Option<u64>,
}

impl ArmedFailures {
    /// Counts a call of this kind. Is it the one that is armed to fail?
    pub(crate) fn meets(&mut self, kind: DeviceFault) -> bool
        ensures met { result ≡ is_next (armed_for kind self.old) }
        ensures armed { self.new ≡ armed_after kind self.old }
    {
        match kind {
            DeviceFault::Read => is_met(&mut self.read),
            DeviceFault::Write => is_met(&mut self.write),
            DeviceFault::Sync => is_met(&mut self.sync),
        }
    }
}

// Counts a call of a kind, of which so many come before the one that is armed to fail. Is it that one?
fn is_met(before: &mut Option<u64>) -> bool
    ensures met { result ≡ is_next before.old }
    ensures nearer { before.new ≡ one_nearer before.old }
{
    match *before {
        Some(0) => {
            *before = None;
            true
        }
        Some(more) => {
            *before = Some(more - 1);
            false
        }
        None => false,
    }
}
