// One batch more.
ghost use Rattle.std.specs.Prelude.{Some, ◌≡◌, ◌↔◌, ◌<◌, ◌≤◌, ◌+◌, ℕ, length, OnOk, OnErr, IfErr, IfSome, IsErrOf};
ghost use Rattle.tmem_disk.specs.Disk.{SameSeenOutside, IsSynced, IsWriteOrSync};
ghost use Rattle.tmem_gate.specs.Calls.{Uses};
ghost use Rattle.tmem_gate.specs.Changes.{Puts, call_outcome};
ghost use Rattle.tmem_gate.specs.Gate.{StandsClosed, HasBody};
ghost use Rattle.tmem_state.specs.Batch.{IsBatch};
ghost use Rattle.tmem_record.specs.Layout.{slot_at, end_at};
ghost use Rattle.tmem_record.specs.Spelling.{batch_bytes};
ghost use Rattle.tmem_state.specs.declared.version.Version.TheVariants.{Two};
ghost use Rattle.tmem_redolog.specs.Appends.{batch_placed, WithoutBatch, WithBatch, IsAppendFault};

use crate::log::Log;
use tmem_disk::{DeviceFault, Disk};
use tmem_fault::Fault;
use tmem_gate::put_cell;
use tmem_record::{Layout, SLOT_BODY_BYTES, SLOT_BYTES, encode_batch};
use tmem_state::Batch;

/// Puts a batch last in the log over an image of version 2, into the first slot behind it, whose gate stands closed.
/// `LogFull` where every slot is used; nothing changes then. `Device` where the write of the batch failed: no crash leaves it
/// in the log. `Unknown` where a sync or the write of the gate failed: a crash leaves it in the log or not. After a refusal
/// the log's numbers stay. Nothing outside the slot is written. The buffer has `SLOT_BODY_BYTES` bytes or more. The batch is
/// spelled there; afterwards it may hold anything.
pub fn append<D: Disk>(
    disk: &mut D,
    layout: Layout,
    log: &mut Log,
    first: u64,
    batch: &Batch,
    buffer: &mut [u8],
) -> Result<(), Fault>
    requires room { end_at layout.vars layout.slots ≤ (D.view disk.old).capacity }
    requires used { log.old.used ≤ layout.slots }
    requires closed { log.old.used < layout.slots → StandsClosed (slot_at layout.vars log.old.used) (D.view disk.old) }
    requires batch { IsBatch layout.vars batch.now }
    requires buffer { SLOT_BODY_BYTES ≤ length buffer.old }
    ensures uses { Uses (D.view disk.old) (D.view disk.new) result }
    ensures errors { IfErr result IsAppendFault }

    // Every slot is used: the one cause of `LogFull`.
    ensures full { IsErrOf result Fault.LogFull ↔ (log.old.used ≡ layout.slots) }
    ensures untouched { IsErrOf result Fault.LogFull → disk.new ≡ disk.old }

    // At `Device` a write failed, and not that of the gate. At `Unknown` a write or a sync failed, and the bytes of the
    // batch were written before.
    ensures write_failed { IsErrOf result Fault.Device → (D.view disk.new).last_fault ≡ Some DeviceFault.Write }
    ensures gate_untouched { IsErrOf result Fault.Device →
        SameSeenOutside (slot_at layout.vars log.old.used + 1) SLOT_BODY_BYTES (D.view disk.old) (D.view disk.new) }
    ensures gate_failed { IsErrOf result Fault.Unknown → IfSome (D.view disk.new).last_fault IsWriteOrSync }
    ensures body_written { IsErrOf result Fault.Unknown → (D.view disk.new).keeps_model →
        HasBody (slot_at layout.vars log.old.used) (batch_bytes Two log.old.generation first batch.now) (D.view disk.new).seen }

    // A crash leaves what one might have left before, with the batch or without it in each log that it follows on. Nothing
    // outside the slot changes, and each closed slot behind it stays closed.
    ensures puts { Puts (slot_at layout.vars log.old.used) SLOT_BYTES
        (WithoutBatch (batch_placed layout log.old first batch.now)) (WithBatch (batch_placed layout log.old first batch.now))
        (D.view disk.old) (D.view disk.new) (call_outcome result) }
    ensures behind { (k : ℕ) → log.old.used < k → StandsClosed (slot_at layout.vars k) (D.view disk.old)
        → StandsClosed (slot_at layout.vars k) (D.view disk.new) }

    // After `Ok` every write made before is synced, and that of the batch.
    ensures durable { OnOk result (IsSynced (D.view disk.new)) }

    // At `Ok` the log's numbers count the batch, else they stay.
    ensures generation { log.new.generation ≡ log.old.generation }
    ensures next { OnOk result (log.new.used ≡ log.old.used + 1) }
    ensures stays { OnErr result (log.new ≡ log.old) }
{
    if log.used == layout.slots {
        return Err(Fault::LogFull);
    }
    let len = encode_batch(batch, log.generation, first, buffer);
    let put = put_cell(disk, layout.slot(log.used), &buffer[..len]);
    if put.is_ok() {
        log.used += 1;
    }
    put
}
