// A cell of a device, each failure as a fault.
ghost use Rattle.std.specs.Prelude.{◌≡◌, ◌≤◌, ◌+◌, length, OnOk, IfErr};
ghost use Rattle.tmem_disk.specs.Disk.{AtEachMoment, LeavesOnly, IsSynced, ReadsAs, overwritten};
ghost use Rattle.tmem_gate.specs.Gate.{IsClosed};
ghost use Rattle.tmem_gate.specs.Calls.{MadeBy, Uses, WritesWithin};
ghost use Rattle.tmem_gate.specs.Cells.{LeftClosed, LeftOpen};
ghost use Rattle.tmem_gate.specs.Changes.{Either};
ghost use Rattle.tmem_journal.specs.Formatted.{open_cell};

use tmem_disk::Disk;
use tmem_fault::Fault;

/// Writes a cell whose gate stands closed, and opens it. `Device` where a call of the device failed, whichever it was.
pub(crate) fn put_cell<D: Disk>(disk: &mut D, at: u64, bytes: &[u8]) -> Result<(), Fault>
    requires room { at + 1 + length bytes.now ≤ (D.view disk.old).capacity }
    requires closed { LeavesOnly (D.view disk.old) (IsClosed at) }
    ensures uses { Uses (D.view disk.old) (D.view disk.new) result }
    ensures written { OnOk result (ReadsAs (D.view disk.new) (overwritten (D.view disk.old).seen at (open_cell bytes.now))) }
    ensures elsewhere { WritesWithin at (1 + length bytes.now) (D.view disk.old) (D.view disk.new) }
    ensures synced { OnOk result (IsSynced (D.view disk.new)) }
    ensures any_moment { AtEachMoment (D.view disk.old) (D.view disk.new)
        (MadeBy (Either (LeftClosed at (length bytes.now)) (LeftOpen at bytes.now (D.view disk.old).seen)) (D.view disk.old)) }
    ensures err { IfErr result (λ f. f ≡ Fault.Device) }
{
    match tmem_gate::put_cell(disk, at, bytes) {
        Ok(()) => Ok(()),
        Err(_) => Err(Fault::Device),
    }
}
