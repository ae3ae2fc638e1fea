// Closes what the log of an older generation left open.
ghost use Rattle.std.specs.Prelude.{◌≡◌, ◌⊎◌, ◌↔◌, ◌<◌, ◌≤◌, ℕ, false, IsTrue, IfOk, OnOk, IfErr, MatchResult};
ghost use Rattle.tmem_disk.specs.Disk.{IsCall, IsSynced};
ghost use Rattle.tmem_gate.specs.Calls.{OnlyReads};
ghost use Rattle.tmem_gate.specs.Gate.{IsOpenAt, IsClosed, StandsClosed};
ghost use Rattle.tmem_record.specs.Layout.{slot_at, end_at};
ghost use Rattle.tmem_redolog.specs.Closes.{Closes, ReadClosed};

use crate::log::Log;
use tmem_disk::{DeviceFault, Disk};
use tmem_gate::close_if_open;
use tmem_record::Layout;

/// Closes each gate behind the log that reads open, and syncs where there was one. A gate that reads closed is not written:
/// that write could leave it open. Where each of them reads closed, the device is only read.
pub fn close_stale<D: Disk>(disk: &mut D, layout: Layout, log: &Log) -> Result<(), DeviceFault>
    requires room { end_at layout.vars layout.slots ≤ (D.view disk.old).capacity }
    requires used { log.now.used ≤ layout.slots }

    // Any call may fail. The answer is the last fault of the device.
    ensures call { IsCall (D.view disk.old) (D.view disk.new) result (λ _. Unit {0}) }

    // Each log that ends before these slots stays, and every byte but their open gates.
    ensures closes { Closes layout.vars layout.slots log.now.generation log.now.used (D.view disk.old) (D.view disk.new) }

    // After `Ok` they read closed, and stand closed where the device was synced before.
    ensures read_closed { (D.view disk.new).keeps_model → OnOk result (ReadClosed layout.vars log.now.used layout.slots (D.view disk.new)) }
    ensures closed { IsSynced (D.view disk.old) → OnOk result ((k : ℕ) → log.now.used ≤ k → k < layout.slots →
        StandsClosed (slot_at layout.vars k) (D.view disk.new)) }
    ensures durable { IsSynced (D.view disk.old) → OnOk result (IsSynced (D.view disk.new)) }

    // With nothing to close there is no write, and no sync that could fail.
    ensures idle { ReadClosed layout.vars log.now.used layout.slots (D.view disk.old) →
        OnlyReads (D.view disk.old) (D.view disk.new) }
    ensures idle_fault { (D.view disk.new).keeps_model → ReadClosed layout.vars log.now.used layout.slots (D.view disk.old) →
        IfErr result (λ f. f ≡ DeviceFault.Read) }
{
    if close_gates(disk, layout, log.used)? {
        disk.sync()?;
    }
    Ok(())
}

// Closes each gate from a slot on that reads open, and answers whether there was one.
fn close_gates<D: Disk>(disk: &mut D, layout: Layout, from: u16) -> Result<bool, DeviceFault>
    requires room { end_at layout.vars layout.slots ≤ (D.view disk.old).capacity }
    requires used { from ≤ layout.slots }
    ensures call { IsCall (D.view disk.old) (D.view disk.new) result (λ f. (f ≡ DeviceFault.Read) ⊎ (f ≡ DeviceFault.Write)) }
    ensures closes { (generation : ℕ) → Closes layout.vars layout.slots generation from (D.view disk.old) (D.view disk.new) }
    ensures closed { (D.view disk.new).keeps_model → OnOk result (ReadClosed layout.vars from layout.slots (D.view disk.new)) }
    ensures reads_only { IfOk result (λ any. any ≡ false → OnlyReads (D.view disk.old) (D.view disk.new)) }
    ensures idle { ReadClosed layout.vars from layout.slots (D.view disk.old) → OnlyReads (D.view disk.old) (D.view disk.new) }
    ensures idle_answer { (D.view disk.new).keeps_model → ReadClosed layout.vars from layout.slots (D.view disk.old) →
        MatchResult result (λ any. any ≡ false) (λ f. f ≡ DeviceFault.Read) }
{
    let mut any = false;
    for k in from..layout.slots {
        let closed = close_if_open(disk, layout.slot(k))?;
        any = any || closed;
    }
    Ok(any)
}
