//! The devices of stores: for scripts, and for threads that count.
ghost use Rattle.std.specs.Prelude.{◌≡◌, ◌⊎◌, IfErr, IfOk};
ghost use Rattle.tmem_disk.specs.Disk.{LeavesOnly};
ghost use Rattle.tmem_disk.specs.SimParts.{sim_view};
ghost use Rattle.tmem_record.specs.Layout.{end_at};
ghost use Rattle.tmem_effect.specs.State.{first_state};
ghost use Rattle.tmem_journal.specs.Contents.{first_position, ContentRepresents};
ghost use Rattle.tmem_file.specs.FileView.{file_view};
ghost use Rattle.tmem_run.specs.Stored.{IsMade, IsFoundOrMade};

use std::alloc::Global;
use std::fs::{self, File, Files};
use std::snapshot::Snapshot;
use tmem_disk::SimDisk;
use tmem_fault::Fault;
use tmem_file::{FileDisk, NewFile};
use tmem_world::{Layout, format, formatted_is_store};

/// A device in memory that was formatted: nothing committed, every variable 0.
pub fn device_in_memory(alloc: Global, layout: Layout) -> Result<SimDisk, Fault>
    ensures stands { IfOk result (λ disk. LeavesOnly (sim_view disk) (ContentRepresents layout.vars layout.slots first_position (first_state layout.vars))) }
    ensures capacity { IfOk result (λ disk. (sim_view disk).capacity ≡ end_at layout.vars layout.slots) }
    ensures failures { IfOk result (λ disk. (sim_view disk).failures ≡ 0) }
    ensures refused { IfErr result (λ fault. (fault ≡ Fault.Memory) ⊎ (fault ≡ Fault.Device)) }
{
    let mut disk = SimDisk::new(alloc, layout.end())?;
    format(&mut disk, layout.vars, layout.slots)?;
    Ok(disk)
}

/// The device of a file: opened as it is where the path is that of a file, and else made. Beside it stand the zeros that it was
/// made of.
pub(crate) fn device_in_file<R: Files<File = File> + AllocGlobal>(
    rt: &R,
    path: &str,
    layout: Layout,
) -> Result<(FileDisk, Option<Snapshot<FileDisk>>), Fault>
    ensures device { IfOk result (λ it. IsFoundOrMade layout.vars layout.slots it.1 it.0) }
    ensures failures { IfOk result (λ it. (file_view it.0).failures ≡ 0) }
    ensures refused { IfErr result (λ fault. (fault ≡ Fault.Memory) ⊎ (fault ≡ Fault.Device)) }
{
    match fs::exists(rt, path) {
        Ok(true) => Ok((FileDisk::open(rt, path, layout.end())?, None)),
        Ok(false) => {
            let (disk, zeros) = made_file(rt, path, layout)?;
            Ok((disk, Some(zeros)))
        }
        Err(_) => Err(Fault::Device),
    }
}

/// A new file, which gets this path once it is formatted, and the zeros that it was made of. Refused by `Device` where something
/// has the path.
pub fn made_file<R: Files<File = File> + AllocGlobal>(
    rt: &R,
    path: &str,
    layout: Layout,
) -> Result<(FileDisk, Snapshot<FileDisk>), Fault>
    ensures made { IfOk result (λ it. IsMade layout.vars layout.slots it.1.value it.0) }
    ensures failures { IfOk result (λ it. (file_view it.0).failures ≡ 0) }
    ensures refused { IfErr result (λ fault. (fault ≡ Fault.Memory) ⊎ (fault ≡ Fault.Device)) }
{
    formatted_is_store::<FileDisk>();
    let mut new = NewFile::create(rt, path, layout.end())?;
    let zeros = Snapshot::of(&new.disk);
    match format(&mut new.disk, layout.vars, layout.slots) {
        Ok(()) => Ok((new.give_name(rt)?, zeros)),
        Err(fault) => {
            new.discard(rt);
            Err(fault)
        }
    }
}
