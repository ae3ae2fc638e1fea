//! Devices: one that holds nothing yet, and one whose syncs take a while, or are held.
ghost use Rattle.std.specs.Prelude.{◌≡◌};

use super::signals::Signals;
use std::alloc::Global;
use std::rt::Clock;
use std::thread;
use std::time::Duration;
use tmem_disk::{DeviceFault, Disk, SimDisk};
use tmem_fault::Fault;
use tmem_journal::{Layout, format};

/// A device of so many variables and slots that holds nothing yet.
pub(super) fn formatted(alloc: Global, vars: u16, slots: u16) -> Result<SimDisk, Fault> {
    let layout = Layout::new(vars, slots)?;
    let mut disk = SimDisk::new(alloc, layout.end())?;
    format(&mut disk, vars, slots)?;
    Ok(disk)
}

/// A device round another.
#[derive(Drop)]
pub(super) struct StageDisk<'a, D: Disk, R: Clock> {
    pub(super) inner: D,
    pub(super) rt: &'a R,
    pub(super) signals: &'a Signals,
    /// How many milliseconds a sync takes at the least.
    pub(super) sync_millis: u64,
}

impl<'a, D: Disk, R: Clock> Disk for StageDisk<'a, D, R> {
    ghost view = { λ d. D.view d.inner };

    ghost is_device = { λ d. D.is_device d.inner };

    fn size(&self) -> u64 {
        self.inner.size()
    }

    fn read(&mut self, at: u64, into: &mut [u8]) -> Result<(), DeviceFault> {
        self.signals.count_call();
        self.inner.read(at, into)
    }

    fn write_at(&mut self, at: u64, bytes: &[u8]) -> Result<(), DeviceFault> {
        self.signals.count_call();
        self.inner.write_at(at, bytes)
    }

    fn sync(&mut self) -> Result<(), DeviceFault> {
        self.signals.count_call();
        if self.sync_millis > 0 {
            thread::sleep(self.rt, Duration::from_millis(self.sync_millis));
        }
        self.signals.meet_sync(self.rt);
        self.inner.sync()
    }
}
