// The log behind an image that holds all that the log held.
ghost use Rattle.std.specs.Prelude.{◌≡◌, ◌⊎◌, ◌<◌, ◌≤◌, Some, ℕ, OnOk, OnErr, IfErr, IfSome, IsErrOf};
ghost use Rattle.tmem_disk.specs.Disk.{IsSynced};
ghost use Rattle.tmem_gate.specs.Calls.{Uses, OnlyReads};
ghost use Rattle.tmem_gate.specs.Gate.{StandsClosed};
ghost use Rattle.tmem_record.specs.Layout.{slot_at, end_at};
ghost use Rattle.tmem_redolog.specs.Closes.{Closes, ReadClosed, empty_log};

use crate::log::Log;
use crate::stale::close_stale;
use tmem_disk::{DeviceFault, Disk};
use tmem_fault::Fault;
use tmem_record::Layout;

/// Begins an empty log of this generation, once an image of it holds all that the log held: closes the gate of each slot
/// that reads open, and syncs where there was one. `Device` where a read or a write failed, `Unknown` where the sync failed:
/// a gate may stand closed then or not, and the log's numbers stay.
pub fn empty<D: Disk>(
    disk: &mut D,
    layout: &Layout,
    log: &mut Log,
    generation: u64,
) -> Result<(), Fault>
    requires room { end_at layout.now.vars layout.now.slots ≤ (D.view disk.old).capacity }
    ensures uses { Uses (D.view disk.old) (D.view disk.new) result }

    // At `Device` a read or a write failed, at `Unknown` the sync.
    ensures errors { IfErr result (λ f. (f ≡ Fault.Device) ⊎ (f ≡ Fault.Unknown)) }
    ensures gate_failed { IsErrOf result Fault.Device →
        IfSome (D.view disk.new).last_fault (λ f. (f ≡ DeviceFault.Read) ⊎ (f ≡ DeviceFault.Write)) }
    ensures sync_failed { IsErrOf result Fault.Unknown → (D.view disk.new).last_fault ≡ Some DeviceFault.Sync }

    // The empty log of this generation stays where there was one, and every byte but the open gates of the slots.
    ensures closes { Closes layout.now.vars layout.now.slots generation 0 (D.view disk.old) (D.view disk.new) }

    // After `Ok` each slot reads closed, and stands closed where the device was synced before.
    ensures read_closed { (D.view disk.new).keeps_model → OnOk result (ReadClosed layout.now.vars 0 layout.now.slots (D.view disk.new)) }
    ensures closed { IsSynced (D.view disk.old) → OnOk result ((k : ℕ) → k < layout.now.slots → StandsClosed (slot_at layout.now.vars k) (D.view disk.new)) }
    ensures durable { IsSynced (D.view disk.old) → OnOk result (IsSynced (D.view disk.new)) }

    // With nothing to close there is no write, and no sync that could fail.
    ensures idle { ReadClosed layout.now.vars 0 layout.now.slots (D.view disk.old) →
        OnlyReads (D.view disk.old) (D.view disk.new) }
    ensures idle_fault { (D.view disk.new).keeps_model → ReadClosed layout.now.vars 0 layout.now.slots (D.view disk.old) →
        IfErr result (λ f. f ≡ Fault.Device) }

    // At `Ok` the log's numbers are those of the empty log, else they stay.
    ensures emptied { OnOk result (log.new ≡ empty_log generation) }
    ensures stays { OnErr result (log.new ≡ log.old) }
{
    let next = Log {
        generation,
        used: 0,
    };
    match close_stale(disk, *layout, &next) {
        Ok(()) => {}
        Err(DeviceFault::Sync) => return Err(Fault::Unknown),
        Err(_) => return Err(Fault::Device),
    }
    *log = next;
    Ok(())
}
