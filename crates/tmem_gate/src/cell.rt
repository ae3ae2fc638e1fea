//! The calls on a whole cell, each failure as a fault.
ghost use Rattle.std.specs.Prelude.{◌≡◌, ◌⊎◌, ◌≤◌, ◌<◌, ◌+◌, ◌∷◌, Some, false, length, OnOk, IfOk, IfErr, IfSome, IsErrOf, MatchResult};
ghost use Rattle.tmem_disk.specs.Disk.{IsCall, SameSeenOutside, ReadsAs, overwritten, IsSynced, IsWriteOrSync};
ghost use Rattle.tmem_gate.specs.Calls.{Uses, OnlyReads, WritesWithin};
ghost use Rattle.tmem_gate.specs.Cells.{LeftClosed, LeftOpen};
ghost use Rattle.tmem_gate.specs.Changes.{Puts, call_outcome};
ghost use Rattle.tmem_gate.specs.Gate.{IsClosed, StandsClosed, HasBody};

use crate::gate::{GATE_OPEN, close_gate, is_open, open_gate, put_body};
use tmem_disk::{DeviceFault, Disk};
use tmem_fault::Fault;

/// Writes a body behind a gate that stands closed, and opens it: `put_body`, and then `open_gate`. `Device` where the write of
/// the body failed: the gate stands closed. `Unknown` where a sync or the write of the gate failed.
pub fn put_cell<D: Disk>(disk: &mut D, at: u64, bytes: &[u8]) -> Result<(), Fault>
    requires room { at + 1 + length bytes.now ≤ (D.view disk.old).capacity }
    requires closed { StandsClosed at (D.view disk.old) }
    ensures uses { Uses (D.view disk.old) (D.view disk.new) result }
    ensures errors { IfErr result (λ f. (f ≡ Fault.Device) ⊎ (f ≡ Fault.Unknown)) }
    ensures write_failed { IsErrOf result Fault.Device → (D.view disk.new).last_fault ≡ Some DeviceFault.Write }
    ensures gate_untouched { IsErrOf result Fault.Device →
        SameSeenOutside (at + 1) (length bytes.now) (D.view disk.old) (D.view disk.new) }
    ensures gate_failed { IsErrOf result Fault.Unknown → IfSome (D.view disk.new).last_fault IsWriteOrSync }
    ensures body_written { IsErrOf result Fault.Unknown → (D.view disk.new).keeps_model →
        HasBody at bytes.now (D.view disk.new).seen }

    // A crash leaves the cell closed, or open over the bytes, and nothing outside it is written.
    ensures puts { Puts at (1 + length bytes.now) (LeftClosed at (length bytes.now)) (LeftOpen at bytes.now (D.view disk.old).seen)
        (D.view disk.old) (D.view disk.new) (call_outcome result) }
    ensures written { OnOk result
        (ReadsAs (D.view disk.new) (overwritten (D.view disk.old).seen at (GATE_OPEN ∷ bytes.now))) }
    ensures durable { OnOk result (IsSynced (D.view disk.new)) }
{
    match put_body(disk, at, bytes) {
        Ok(()) => {}
        Err(DeviceFault::Write) => return Err(Fault::Device),
        Err(_) => return Err(Fault::Unknown),
    }
    match open_gate(disk, at) {
        Ok(()) => Ok(()),
        Err(_) => Err(Fault::Unknown),
    }
}

/// Closes a gate that reads open, in a write that is not synced, and answers whether it did. A gate that reads closed is not
/// written: that write could leave it open.
pub fn close_if_open<D: Disk>(disk: &mut D, at: u64) -> Result<bool, DeviceFault>
    requires { at < (D.view disk.old).capacity }
    ensures call { IsCall (D.view disk.old) (D.view disk.new) result (λ f. (f ≡ DeviceFault.Read) ⊎ (f ≡ DeviceFault.Write)) }
    ensures within { WritesWithin at 1 (D.view disk.old) (D.view disk.new) }
    ensures closed { (D.view disk.new).keeps_model → OnOk result (IsClosed at (D.view disk.new).seen) }
    ensures reads_only { IfOk result (λ yes. yes ≡ false → OnlyReads (D.view disk.old) (D.view disk.new)) }
    ensures idle { IsClosed at (D.view disk.old).seen → OnlyReads (D.view disk.old) (D.view disk.new) }
    ensures idle_answer { (D.view disk.new).keeps_model → IsClosed at (D.view disk.old).seen →
        MatchResult result (λ yes. yes ≡ false) (λ f. f ≡ DeviceFault.Read) }
{
    let open = is_open(disk, at)?;
    if open {
        close_gate(disk, at)?;
    }
    Ok(open)
}
