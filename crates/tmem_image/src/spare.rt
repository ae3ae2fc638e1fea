// An image, written to the copy that is not chosen.
ghost use Rattle.std.specs.Prelude.{◌≡◌, ◌⊎◌, ◌≤◌, ◌<◌, ◌+◌, ◌-◌, ◌*◌, Some, length, take, IfErr, IfSome, IsErrOf, OnOk, OnErr};
ghost use Rattle.tmem_disk.specs.Disk.{AtEachMoment, IsSynced, IsWriteOrSync, LeavesOnly};
ghost use Rattle.tmem_gate.specs.Calls.{Uses, WritesWithin, IsReadOrWrite};
ghost use Rattle.tmem_gate.specs.Changes.{Puts, call_outcome};
ghost use Rattle.tmem_gate.specs.Gate.{StandsClosed};
ghost use Rattle.tmem_record.specs.Layout.{pages_of, image_at, image_size, end_at};
ghost use Rattle.tmem_record.specs.StandsAt.{StandsAt};
ghost use Rattle.tmem_image.specs.Spelling.{pages_body, AreValues};
ghost use Rattle.tmem_image.specs.Image.{IsGeneration};
ghost use Rattle.tmem_image.specs.Pages.{HoldsOthers, pages_at};
ghost use Rattle.tmem_image.specs.Spare.{GateIsSynced, Spares, image_placed, WithImage, WithoutImage, AwaitsGate};

use crate::page_sets::has_page;
use crate::spelling::{header_of, page_of};
use tmem_disk::{DeviceFault, Disk};
use tmem_fault::Fault;
use tmem_gate::device::{sync, write};
use tmem_gate::{close_if_open, put_cell};
use tmem_record::{HEADER_BYTES, Layout, PAGE_BYTES};
use tmem_state::State;

/// Writes an image of this generation and state to a copy, in version 2 of the format: closes its gate where it reads open,
/// and syncs; writes these pages, then the header without its gate, and syncs; opens the gate, and syncs. `Device` where a
/// read failed, or a write of anything but the gate that is opened: no crash leaves the image. `Unknown` where a sync or the
/// write of that gate failed: a crash leaves the image or not; where it was that write, the whole image stands behind the
/// gate. Nothing outside the copy is written. Every crash leaves the gate of the copy as a read gives it, and the image is of
/// as many values as the layout has variables. Each page that is not written holds the state's values already, after every
/// crash. `pages` has page `p` where its bit `p` is set, and bits behind the last page count for nothing.
pub fn write_spare<D: Disk>(
    disk: &mut D,
    layout: Layout,
    copy: u8,
    generation: u64,
    state: &State,
    pages: u16,
) -> Result<(), Fault>
    requires room { end_at layout.vars layout.slots ≤ (D.view disk.old).capacity }
    requires one { copy ≤ 1 }
    requires number { IsGeneration generation }
    requires sized { length state.now.values ≡ layout.vars }
    requires settled { GateIsSynced (image_at layout.vars copy) (D.view disk.old) }
    requires others { LeavesOnly (D.view disk.old) (HoldsOthers (pages_at layout.vars copy) layout.vars pages state.now.values) }
    ensures uses { Uses (D.view disk.old) (D.view disk.new) result }
    ensures errors { IfErr result (λ f. (f ≡ Fault.Device) ⊎ (f ≡ Fault.Unknown)) }
    ensures call_failed { IsErrOf result Fault.Device → IfSome (D.view disk.new).last_fault IsReadOrWrite }
    ensures gate_failed { IsErrOf result Fault.Unknown → IfSome (D.view disk.new).last_fault IsWriteOrSync }
    ensures gate_write_failed { IsErrOf result Fault.Unknown → (D.view disk.new).last_fault ≡ Some DeviceFault.Write →
        AwaitsGate (image_placed layout copy generation state.now) (D.view disk.old) (D.view disk.new) }

    // A crash leaves what one might have left before, with the image in that copy, or with that copy closed or stale, as it was.
    // Nothing outside the copy is written.
    ensures puts { Puts (image_at layout.vars copy) (image_size layout.vars)
        (WithoutImage (image_placed layout copy generation state.now)) (WithImage (image_placed layout copy generation state.now))
        (D.view disk.old) (D.view disk.new) (call_outcome result) }
    ensures durable { OnOk result (IsSynced (D.view disk.new)) }

    // The other pages are not written: a crash at any moment leaves the state's values in them.
    ensures kept { AtEachMoment (D.view disk.old) (D.view disk.new) (HoldsOthers (pages_at layout.vars copy) layout.vars pages state.now.values) }
{
    let at = layout.image(copy);
    recall_values(state.values());
    shut(disk, at)?;
    write_pages(
        disk,
        layout,
        at + HEADER_BYTES as u64,
        state.values(),
        pages,
    )?;
    put_cell(disk, at, &header_of(generation, state))
}

// Closes the gate at an offset where it reads open, and syncs then.
fn shut<D: Disk>(disk: &mut D, at: u64) -> Result<(), Fault>
    requires at { at < (D.view disk.old).capacity }
    requires settled { GateIsSynced at (D.view disk.old) }
    ensures uses { Uses (D.view disk.old) (D.view disk.new) result }
    ensures errors { IfErr result (λ f. (f ≡ Fault.Device) ⊎ (f ≡ Fault.Unknown)) }
    ensures call_failed { IsErrOf result Fault.Device → IfSome (D.view disk.new).last_fault IsReadOrWrite }
    ensures sync_failed { IsErrOf result Fault.Unknown → (D.view disk.new).last_fault ≡ Some DeviceFault.Sync }
    ensures spares { Spares at 1 (D.view disk.old) (D.view disk.new) }
    ensures closed { OnOk result (StandsClosed at (D.view disk.new)) }
{
    match close_if_open(disk, at) {
        Ok(false) => return Ok(()),
        Ok(true) => {}
        Err(_) => return Err(Fault::Device),
    }
    match sync(disk) {
        Ok(()) => Ok(()),
        Err(_) => Err(Fault::Unknown),
    }
}

// That values have 64 bits, for a caller's proof: it does nothing.
fn recall_values(values: &[i64])
    ensures { AreValues values.now }
{
    for value in values {
        let _value = *value;
    }
}

// Writes those pages of these values that are in a set, each by one write. The pages begin at an offset, and the others stand
// there already.
fn write_pages<D: Disk>(
    disk: &mut D,
    layout: Layout,
    at: u64,
    values: &[i64],
    changed: u16,
) -> Result<(), Fault>
    requires room { at + 512 * pages_of layout.vars ≤ (D.view disk.old).capacity }
    requires sized { length values.now ≡ layout.vars }
    requires others { LeavesOnly (D.view disk.old) (HoldsOthers at layout.vars changed values.now) }
    ensures uses { Uses (D.view disk.old) (D.view disk.new) result }
    ensures err { IfErr result (λ f. f ≡ Fault.Device) }
    ensures last { OnErr result ((D.view disk.new).last_fault ≡ Some DeviceFault.Write) }
    ensures elsewhere { WritesWithin at (512 * pages_of layout.vars) (D.view disk.old) (D.view disk.new) }
    ensures kept { AtEachMoment (D.view disk.old) (D.view disk.new) (HoldsOthers at layout.vars changed values.now) }
    ensures stand { OnOk result ((D.view disk.new).keeps_model → StandsAt at (pages_body layout.vars values.now) (D.view disk.new).seen) }
{
    let pages = layout.pages() as u16;
    for page in 0..pages {
        if has_page(changed, page) {
            let bytes = page_of(values, page);
            write(disk, at + PAGE_BYTES as u64 * page as u64, &bytes)?;
        }
    }
    Ok(())
}
