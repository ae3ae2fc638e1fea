//! The calls of a device, each failure as a fault.
ghost use Rattle.std.specs.Prelude.{Some, ◌≡◌, ◌⊎◌, ◌≤◌, ◌+◌, length, slice_range, IfOk, OnOk, OnErr, IfErr};
ghost use Rattle.tmem_disk.specs.Disk.{Elapses, IsSynced, ReadsAs, overwritten};
ghost use Rattle.tmem_gate.specs.Calls.{Uses, OnlyReads, WritesWithin};

use tmem_disk::{DeviceFault, Disk};
use tmem_fault::Fault;

/// Fills a buffer with the bytes from an offset on. `Device` where the read failed.
pub fn read<D: Disk>(disk: &mut D, at: u64, into: &mut [u8]) -> Result<(), Fault>
    requires { at + length into.old ≤ (D.view disk.old).capacity }
    ensures uses { Uses (D.view disk.old) (D.view disk.new) result }
    ensures reads_only { OnlyReads (D.view disk.old) (D.view disk.new) }
    ensures bytes { (D.view disk.new).keeps_model → OnOk result (into.new ≡ slice_range (D.view disk.old).seen at (at + length into.old)) }
    ensures err { IfErr result (λ f. f ≡ Fault.Device) }
    ensures last { OnErr result ((D.view disk.new).last_fault ≡ Some DeviceFault.Read) }
{
    match disk.read(at, into) {
        Ok(()) => Ok(()),
        Err(_) => Err(Fault::Device),
    }
}

/// Fills a list of bytes with those from an offset on, by one read, and hands it back. `Device` where the read failed.
pub fn read_piece<D: Disk>(disk: &mut D, at: u64, mut piece: Vec<u8>) -> Result<Vec<u8>, Fault>
    requires { at + length piece.items ≤ (D.view disk.old).capacity }
    ensures uses { Uses (D.view disk.old) (D.view disk.new) result }
    ensures reads_only { OnlyReads (D.view disk.old) (D.view disk.new) }
    ensures length { IfOk result (λ filled. length filled.items ≡ length piece.items) }
    ensures bytes { (D.view disk.new).keeps_model → IfOk result (λ filled. filled.items ≡ slice_range (D.view disk.old).seen at (at + length piece.items)) }
    ensures err { IfErr result (λ f. f ≡ Fault.Device) }
    ensures last { OnErr result ((D.view disk.new).last_fault ≡ Some DeviceFault.Read) }
{
    read(disk, at, &mut piece)?;
    Ok(piece)
}

/// Makes everything that was written durable. `Device` where the sync failed.
pub fn sync<D: Disk>(disk: &mut D) -> Result<(), Fault>
    ensures uses { Uses (D.view disk.old) (D.view disk.new) result }
    ensures reads_only { OnlyReads (D.view disk.old) (D.view disk.new) }
    ensures time { Elapses (D.view disk.old) (D.view disk.new) (D.view disk.new).may_leave }
    ensures synced { OnOk result (IsSynced (D.view disk.new)) }
    ensures err { IfErr result (λ f. f ≡ Fault.Device) }
    ensures last { OnErr result ((D.view disk.new).last_fault ≡ Some DeviceFault.Sync) }
{
    match disk.sync() {
        Ok(()) => Ok(()),
        Err(_) => Err(Fault::Device),
    }
}

/// Writes over the bytes from an offset on. `Device` where the write failed.
pub fn write<D: Disk>(disk: &mut D, at: u64, bytes: &[u8]) -> Result<(), Fault>
    requires { at + length bytes.now ≤ (D.view disk.old).capacity }
    ensures uses { Uses (D.view disk.old) (D.view disk.new) result }
    ensures written { OnOk result (ReadsAs (D.view disk.new) (overwritten (D.view disk.old).seen at bytes.now)) }
    ensures elsewhere { WritesWithin at (length bytes.now) (D.view disk.old) (D.view disk.new) }
    ensures err { IfErr result (λ f. f ≡ Fault.Device) }
    ensures last { OnErr result ((D.view disk.new).last_fault ≡ Some DeviceFault.Write) }
{
    match disk.write_at(at, bytes) {
        Ok(()) => Ok(()),
        Err(_) => Err(Fault::Device),
    }
}
