// A file or a block device as a device.
ghost use Rattle.std.specs.Prelude.{◌≡◌, ◌<◌, ◌≤◌, ◌+◌, ◌^◌, [], None, Some, length, slice_range, IfOk, IsOkUnless, OnOk, OnErr};
ghost use Rattle.tmem_disk.specs.Disk.{IsCall, Elapses, overwritten, ReadsAs, SameSeenOutside, LeavesOnly, LeavesEach, StillLeaves, IsSynced, Rewritten, after_fault};
ghost use Rattle.tmem_disk.specs.Start.{IsNewDevice};
ghost use Rattle.tmem_file.specs.Record.{reach};
ghost use Rattle.tmem_file.specs.Recorded.{start_of, call_events};
ghost use Rattle.tmem_file.specs.Opening.{IsFreshlyOpened};

use crate::naming::{keep_name, lock, open_there};
use crate::recorded::RecordedFile;
use std::fs::{File, Files};
use tmem_disk::{DeviceFault, Disk};
use tmem_fault::Fault;

/// A file that this process alone has open as a device. It keeps the disk model as long as each read gives what the record
/// of its calls says that the file holds. Once a sync has failed, each later one fails too, since the system may have
/// dropped the bytes that it could not write; and so it is once a write has failed in a range that cannot be read then.
/// To go on, open the file anew.
pub struct FileDisk {
    file: RecordedFile,
    failures: u64,
    last_fault: Option<DeviceFault>,
    ghost within: { reach (call_events file.calls) ≤ length (start_of file.calls) },
    ghost counted: { failures < 2 ^ 64 },
}

// By hand, so that a function that drops one makes one call.
impl Drop for FileDisk {
    fn drop(self) {
        let FileDisk {
            file: _file,
            failures: _failures,
            last_fault: _last_fault,
        } = self;
    }
}

impl FileDisk {
    ghost use Rattle.tmem_file.specs.FileView.{file_view};

    /// Opens a file or a block device that is there, and locks it for as long as the device lives. Its first bytes are the device,
    /// as many as there are, but no more than `most`: those are read once, and then synced, and nothing behind them is read or
    /// written. Where it has a second name, as a new file has whose folder is not known to be synced, the folder in which it stands is
    /// synced first. Refused by `Device` where the file is missing, is no regular file and no block device, may not be read and written, or
    /// is open as a device already, and where a call fails, also one by which that folder is found, opened and synced.
    pub fn open<R: Files<File = File> + AllocGlobal>(
        rt: &R,
        path: &str,
        most: u64,
    ) -> Result<FileDisk, Fault>
        ensures opened { IfOk result (λ disk. IsFreshlyOpened (file_view disk)) }
        ensures most { IfOk result (λ disk. (file_view disk).capacity ≤ most) }
        ensures refused { IsOkUnless result Fault.Device }
    {
        let Ok(file) = open_there(rt, path).and_then(lock) else {
            return Err(Fault::Device);
        };
        if keep_name(rt, path, &file).is_err() {
            return Err(Fault::Device);
        }
        match RecordedFile::found(file, most) {
            Ok(found) => FileDisk::settle(found),
            Err(_) => Err(Fault::Device),
        }
    }

    /// An empty file, after so many zeros were written into it and synced.
    pub(crate) fn blank(file: File, size: u64) -> Result<FileDisk, Fault>
        ensures made { IfOk result (λ disk. IsNewDevice size (file_view disk)) }
        ensures refused { IsOkUnless result Fault.Device }
    {
        match lock(file).and_then(|file| RecordedFile::zeros(file, size)) {
            Ok(zeros) => FileDisk::settle(zeros),
            Err(_) => Err(Fault::Device),
        }
    }

    // A device of which nothing is left to sync.
    fn settle(mut file: RecordedFile) -> Result<FileDisk, Fault>
        requires { call_events file.calls ≡ [] }
        ensures opened { IfOk result (λ disk. IsFreshlyOpened (file_view disk)) }
        ensures seen { IfOk result (λ disk. (file_view disk).seen ≡ start_of file.calls) }
        ensures capacity { IfOk result (λ disk. (file_view disk).capacity ≡ length (start_of file.calls)) }
        ensures refused { IsOkUnless result Fault.Device }
    {
        if file.sync().is_err() {
            return Err(Fault::Device);
        }
        Ok(FileDisk {
            file,
            failures: 0,
            last_fault: None,
        })
    }

    // One failed call more. A count at the greatest number stays there.
    fn note(&mut self, fault: DeviceFault)
        ensures count { self.new.failures ≡ after_fault self.old.failures }
        ensures last { self.new.last_fault ≡ Some fault }
        ensures calls { self.new.file ≡ self.old.file }
    {
        self.failures = self.failures.saturating_add(1);
        self.last_fault = Some(fault);
    }
}

impl Disk for FileDisk {
    ghost use Rattle.tmem_file.specs.FileView.{file_view, file_is_device};

    ghost view = { file_view };

    ghost is_device = { file_is_device };

    fn size(&self) -> u64 {
        self.file.size()
    }

    fn read(&mut self, at: u64, into: &mut [u8]) -> Result<(), DeviceFault> {
        if self.file.read(at, into).is_err() {
            self.note(DeviceFault::Read);
            return Err(DeviceFault::Read);
        }
        Ok(())
    }

    fn write_at(&mut self, at: u64, bytes: &[u8]) -> Result<(), DeviceFault> {
        if self.file.write(at, bytes).is_err() {
            self.note(DeviceFault::Write);
            return Err(DeviceFault::Write);
        }
        Ok(())
    }

    // The system is not asked where it has nothing to sync.
    fn sync(&mut self) -> Result<(), DeviceFault> {
        if self.file.is_synced() {
            return Ok(());
        }
        if self.file.sync().is_err() {
            self.note(DeviceFault::Sync);
            return Err(DeviceFault::Sync);
        }
        Ok(())
    }
}
