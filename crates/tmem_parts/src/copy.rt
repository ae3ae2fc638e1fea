//! A copy of the bytes as a device in memory, which an opening may write to.
ghost use Rattle.std.specs.Prelude.{◌≡◌, ◌⊎◌, length, IfOk, IfErr};
ghost use Rattle.tmem_disk.specs.SimParts.{sim_view};

use std::alloc::Global;
use tmem_disk::{Disk, SimDisk};
use tmem_fault::Fault;

/// A device in memory that holds these bytes.
pub(crate) fn disk_of(alloc: Global, bytes: &[u8]) -> Result<SimDisk, Fault>
    ensures seen { IfOk result (λ disk. (sim_view disk).seen ≡ bytes.now) }
    ensures capacity { IfOk result (λ disk. (sim_view disk).capacity ≡ length bytes.now) }
    ensures errors { IfErr result (λ fault. (fault ≡ Fault.Memory) ⊎ (fault ≡ Fault.Device)) }
{
    let mut disk = SimDisk::new(alloc, bytes.len() as u64)?;
    match disk.write_at(0, bytes) {
        Ok(()) => Ok(disk),
        Err(_) => Err(Fault::Device),
    }
}
