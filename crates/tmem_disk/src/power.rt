// Whether a device in memory runs, and at which of its calls it crashes or fails.
ghost use Rattle.std.specs.Prelude.{◌≡◌, ◌↔◌, Some, IsTrue};
ghost use Rattle.tmem_disk.specs.Power.{IsCrashed, running, reading, writing, syncing, power_after, met_by_write, left_by_write, met_by_sync, left_by_sync, only_fails, Fails, restarted};

use crate::DeviceFault;
use crate::failures::ArmedFailures;

/// What a crash makes of the bytes that were written since the last successful sync.
#[derive(Clone, Copy, Debug, PartialEq, Eq)]
pub enum Fill {
    /// As at that sync.
    Old,
    /// As a read would have given them, with the bytes of the write at which the device crashed.
    New,
    /// This byte at each offset.
    Byte(u8),
}

/// A crash that is still to come.
#[derive(Clone, Copy)]
pub(crate) enum ArmedCrash {
    /// At the write behind so many more.
    AtWrite(u64, Fill),
    /// At the next write that starts at this offset.
    AtPlace(u64, Fill),
    /// At the sync behind so many more.
    AtSync(u64, Fill),
}

/// The crash from which a device was not restarted yet, the one that is armed, and the calls that are armed to fail. What is armed outlives
/// that crash.
#[derive(Clone, Copy)]
pub(crate) struct Power {
    pub(crate) crashed: Option<Fill>,
    pub(crate) armed: Option<ArmedCrash>,
    pub(crate) failing: ArmedFailures,
}

impl Power {
    // It runs, and nothing is armed.
    pub(crate) fn running() -> Power
        ensures { result ≡ running }
    {
        Power {
            crashed: None,
            armed: None,
            failing: ArmedFailures {
                read: None,
                write: None,
                sync: None,
            },
        }
    }

    pub(crate) fn is_crashed(&self) -> bool
        ensures { IsTrue result ↔ IsCrashed self.now }
    {
        self.crashed.is_some()
    }

    // Begins a read. Does it fail?
    pub(crate) fn fails_at_read(&mut self) -> bool
        ensures power { self.new ≡ power_after reading self.old }
        ensures fails { IsTrue result ↔ Fails reading self.old }
    {
        self.is_crashed() || self.failing.meets(DeviceFault::Read)
    }

    // Begins a sync. Does it fail? A crash that it meets wins.
    pub(crate) fn fails_at_sync(&mut self) -> bool
        ensures power { self.new ≡ power_after syncing self.old }
        ensures fails { IsTrue result ↔ Fails syncing self.old }
    {
        if self.is_crashed() {
            return true;
        }
        let armed = self.failing.meets(DeviceFault::Sync);
        self.meet_crash_at_sync();
        armed || self.is_crashed()
    }

    // Begins a write from this offset on at a device that runs. Does it fail with no crash? A crash that it meets wins.
    pub(crate) fn only_fails_at_write(&mut self, at: u64) -> bool
        requires { ¬ IsCrashed self.old }
        ensures power { self.new ≡ power_after (writing at) self.old }
        ensures fails { result ≡ only_fails at self.old }
    {
        let armed = self.failing.meets(DeviceFault::Write);
        self.meet_crash_at_write(at);
        armed && !self.is_crashed()
    }

    // Counts a write from this offset on at a device that runs, and crashes it there where it is the one that a crash is
    // armed for.
    fn meet_crash_at_write(&mut self, at: u64)
        requires { ¬ IsCrashed self.old }
        ensures crashed { self.new.crashed ≡ met_by_write at self.old.armed }
        ensures armed { self.new.armed ≡ left_by_write at self.old.armed }
        ensures failing { self.new.failing ≡ self.old.failing }
    {
        match self.armed {
            Some(ArmedCrash::AtWrite(0, fill)) => {
                self.crashed = Some(fill);
                self.armed = None;
            }
            Some(ArmedCrash::AtWrite(more, fill)) => {
                self.armed = Some(ArmedCrash::AtWrite(more - 1, fill));
            }
            Some(ArmedCrash::AtPlace(place, fill)) => {
                if at == place {
                    self.crashed = Some(fill);
                    self.armed = None;
                }
            }
            Some(ArmedCrash::AtSync(..)) | None => {}
        }
    }

    // Counts a sync at a device that runs, and crashes it there where it is the one that a crash is armed for.
    fn meet_crash_at_sync(&mut self)
        requires { ¬ IsCrashed self.old }
        ensures crashed { self.new.crashed ≡ met_by_sync self.old.armed }
        ensures armed { self.new.armed ≡ left_by_sync self.old.armed }
        ensures failing { self.new.failing ≡ self.old.failing }
    {
        match self.armed {
            Some(ArmedCrash::AtSync(0, fill)) => {
                self.crashed = Some(fill);
                self.armed = None;
            }
            Some(ArmedCrash::AtSync(more, fill)) => {
                self.armed = Some(ArmedCrash::AtSync(more - 1, fill));
            }
            Some(ArmedCrash::AtWrite(..) | ArmedCrash::AtPlace(..)) | None => {}
        }
    }

    // Ends the crash, and tells its fill.
    pub(crate) fn restart(&mut self) -> Fill
        requires { IsCrashed self.old }
        ensures fill { self.old.crashed ≡ Some result }
        ensures power { self.new ≡ restarted self.old }
    {
        let fill = self.crashed.unwrap();
        self.crashed = None;
        fill
    }
}
