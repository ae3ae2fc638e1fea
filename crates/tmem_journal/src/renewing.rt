// A new image, and an empty log behind it.
ghost use Rattle.std.specs.Prelude.{◌≡◌, ◌⊎◌, ◌<◌, ◌≤◌, ◌+◌, ◌-◌, ◌*◌, ◌^◌, ℕ, ℤ, List, Some, length, OnOk, OnErr, IfErr, IfSome, IsErrOf};
ghost use Rattle.tmem_disk.specs.Disk.{AtEachMoment, IsSynced, IsWriteOrSync, LeavesOnly};
ghost use Rattle.tmem_gate.specs.Calls.{Uses, WritesWithin, IsReadOrWrite};
ghost use Rattle.tmem_gate.specs.Gate.{StandsClosed};
ghost use Rattle.tmem_record.specs.Layout.{image_at, image_size, slot_at, end_at};
ghost use Rattle.tmem_image.specs.Image.{other_copy};
ghost use Rattle.tmem_image.specs.Pages.{HoldsOthers, pages_at};
ghost use Rattle.tmem_image.specs.Spare.{image_placed, AwaitsGate};
ghost use Rattle.tmem_redolog.specs.Closes.{empty_log};
ghost use Rattle.tmem_journal.specs.Contents.{position_at, next_image, ContentRepresents, ContentRepresentsState, IsCurrent};
ghost use Rattle.tmem_journal.specs.Mended.{SameBesideCopy};

use tmem_disk::{DeviceFault, Disk};
use tmem_fault::Fault;
use tmem_image::write_spare;
use tmem_record::Layout;
use tmem_redolog::{Log, empty};
use tmem_state::{State, Version};

/// Writes the state of a device as an image of version 2 and of the next generation to the copy that is not chosen, and empties
/// the log then. Of the pages of that copy it writes these, as the others hold the state's values already. `version` is that of
/// the image that is chosen before: the clauses alone speak of it. `Device` where a read failed, or a write of anything but the
/// gate that opens the image; `Unknown` where a sync or the write of that gate failed. A crash at any moment, or after any
/// answer, leaves a content that represents this state.
pub(crate) fn renew<D: Disk>(
    disk: &mut D,
    layout: Layout,
    version: Version,
    copy: u8,
    log: &mut Log,
    state: &State,
    pages: u16,
) -> Result<(), Fault>
    requires room { end_at layout.vars layout.slots ≤ (D.view disk.old).capacity }
    requires one { copy ≤ 1 }
    requires number { log.old.generation + 1 < 2 ^ 64 }
    requires sized { length state.now.values ≡ layout.vars }
    requires synced { IsSynced (D.view disk.old) }
    requires stands { LeavesOnly (D.view disk.old) (ContentRepresents layout.vars layout.slots (position_at version copy log.old) state.now) }
    requires others { LeavesOnly (D.view disk.old) (HoldsOthers (pages_at layout.vars (other_copy copy)) layout.vars pages state.now.values) }
    ensures uses { Uses (D.view disk.old) (D.view disk.new) result }
    ensures errors { IfErr result (λ f. (f ≡ Fault.Device) ⊎ (f ≡ Fault.Unknown)) }
    ensures call_failed { IsErrOf result Fault.Device → IfSome (D.view disk.new).last_fault IsReadOrWrite }
    ensures gate_failed { IsErrOf result Fault.Unknown → IfSome (D.view disk.new).last_fault IsWriteOrSync }
    ensures gate_write_failed { IsErrOf result Fault.Unknown → (D.view disk.new).last_fault ≡ Some DeviceFault.Write →
        AwaitsGate (image_placed layout (1 - copy) (log.old.generation + 1) state.now) (D.view disk.old) (D.view disk.new) }

    // Block 0 is not written, nor anything behind the slots.
    ensures elsewhere { WritesWithin (image_at layout.vars 0) (2 * image_size layout.vars + 4096 * layout.slots)
        (D.view disk.old) (D.view disk.new) }

    // Beside that copy a read gives what it gave before, but for gates of the log that it gave open.
    ensures beside { (D.view disk.new).keeps_model → SameBesideCopy layout.vars layout.slots (other_copy copy) (D.view disk.old).seen (D.view disk.new).seen }

    // After `Ok` the image that was written is the chosen one, and its log is empty: each slot stands closed.
    ensures any_moment { AtEachMoment (D.view disk.old) (D.view disk.new) (ContentRepresentsState layout.vars layout.slots state.now) }
    ensures stands { LeavesOnly (D.view disk.new) (ContentRepresentsState layout.vars layout.slots state.now) }
    ensures current { version ≡ Version.Two → LeavesOnly (D.view disk.new) (IsCurrent layout.vars layout.slots) }
    ensures sure { OnOk result (LeavesOnly (D.view disk.new)
        (ContentRepresents layout.vars layout.slots (next_image (position_at version copy log.old)) state.now)) }

    // At `Device` it is certain which image is chosen: the old one with its log, or the new one.
    ensures certain { IsErrOf result Fault.Device →
        LeavesOnly (D.view disk.new) (ContentRepresents layout.vars layout.slots (position_at version copy log.old) state.now)
        ⊎ LeavesOnly (D.view disk.new) (ContentRepresents layout.vars layout.slots (next_image (position_at version copy log.old)) state.now) }
    ensures closed { OnOk result ((k : ℕ) → k < layout.slots → StandsClosed (slot_at layout.vars k) (D.view disk.new)) }
    ensures durable { OnOk result (IsSynced (D.view disk.new)) }

    // After `Ok` each page of the copy that was written holds the state's values. What pages of the other copy hold, they hold
    // after any answer.
    ensures written { OnOk result (LeavesOnly (D.view disk.new) (HoldsOthers (pages_at layout.vars (other_copy copy)) layout.vars 0 state.now.values)) }
    ensures aside { (set : ℕ) (values : List ℤ) → LeavesOnly (D.view disk.old) (HoldsOthers (pages_at layout.vars copy) layout.vars set values)
        → LeavesOnly (D.view disk.new) (HoldsOthers (pages_at layout.vars copy) layout.vars set values) }
    ensures emptied { OnOk result (log.new ≡ empty_log (log.old.generation + 1)) }
    ensures stays { OnErr result (log.new ≡ log.old) }
{
    let generation = log.generation + 1;
    write_spare(disk, layout, 1 - copy, generation, state, pages)?;
    empty(disk, &layout, log, generation)
}
