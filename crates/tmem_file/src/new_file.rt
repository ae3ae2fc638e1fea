// A file that is made whole before it gets its name.
ghost use Rattle.std.specs.Prelude.{◌≡◌, ◌⊎◌, IfOk, IfErr, IsOkUnless};
ghost use Rattle.tmem_disk.specs.Start.{IsNewDevice};
ghost use Rattle.tmem_file.specs.Opening.{HasItsName};

use crate::FileDisk;
use crate::naming::{make_beside, open_folder};
use std::fs::{self, File, Files};
use tmem_disk::Disk;
use tmem_fault::Fault;

/// A new file that stands beside the name that it is to get, under that name with `.new` and a number behind it. Whoever
/// makes it writes to `disk` what the file is to hold, and then calls `give_name`, or else `discard`. After a crash in between
/// it is left over: nothing reads it, and it may be removed, or if the file has its own name too, once that was opened.
#[derive(Drop)]
pub struct NewFile {
    /// The file as a device.
    pub disk: FileDisk,
    folder: File,
    name: String,
    beside: String,
}

impl NewFile {
    ghost use Rattle.tmem_file.specs.FileView.{file_view};

    /// Makes a file of this many zeros, synced, beside this name. Refused by `Device` where something has the name, and
    /// where a call fails; by `Memory` where there is none for the names. Nothing is left of the file then.
    pub fn create<R: Files<File = File> + AllocGlobal>(
        rt: &R,
        name: &str,
        size: u64,
    ) -> Result<NewFile, Fault>
        ensures made { IfOk result (λ new. IsNewDevice size (file_view new.disk)) }
        ensures refused { IfErr result (λ fault. (fault ≡ Fault.Memory) ⊎ (fault ≡ Fault.Device)) }
    {
        if fs::symlink_metadata(rt, name).is_ok() {
            return Err(Fault::Device);
        }
        let Ok(folder) = open_folder(rt, name) else {
            return Err(Fault::Device);
        };
        let own_name = String::from_str(rt.alloc(), name)?;
        let (file, beside) = make_beside(rt, name)?;
        match FileDisk::blank(file, size) {
            Ok(disk) => Ok(NewFile {
                disk,
                folder,
                name: own_name,
                beside,
            }),
            Err(fault) => {
                let _ = fs::remove_file(rt, beside.as_str());
                Err(fault)
            }
        }
    }

    /// Syncs the file where that is left to do, gives it its name, and syncs the folder. It never takes the name from a file that has it.
    /// Refused by `Device` where a call fails: this file has the name then, whole, or does not have it. If it has the name and its folder
    /// is not synced, it keeps the other one too, by which `FileDisk::open` sees that.
    pub fn give_name<R: Files<File = File>>(self, rt: &R) -> Result<FileDisk, Fault>
        ensures named { IfOk result (λ disk. HasItsName (file_view self.disk) (file_view disk)) }
        ensures refused { IsOkUnless result Fault.Device }
    {
        let NewFile {
            mut disk,
            folder,
            name,
            beside,
        } = self;
        let linked = disk.sync().is_ok()
            && fs::hard_link(rt, beside.as_str(), name.as_str()).is_ok();
        // A file that is linked has two names now, until its folder is synced. If this one is left over, nothing reads it.
        let named = linked && folder.sync_all().is_ok();
        if named || !linked {
            let _ = fs::remove_file(rt, beside.as_str());
        }
        if named { Ok(disk) } else { Err(Fault::Device) }
    }

    /// Removes the file.
    pub fn discard<R: Files<File = File>>(self, rt: &R) {
        let _ = fs::remove_file(rt, self.beside.as_str());
    }
}
