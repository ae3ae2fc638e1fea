// The copy that a device chooses.
ghost use Rattle.std.specs.Prelude.{◌≡◌, ◌⊎◌, ◌≤◌, ◌+◌, ℕ, List, Some, IfOk, IfErr, IfSome, IfNone, OnErr, IsErrOf};
ghost use Rattle.tmem_gate.specs.Calls.{Uses, OnlyReads, IsWhyNone};
ghost use Rattle.tmem_effect.specs.State.{State as StateOf};
ghost use Rattle.tmem_state.specs.declared.version.Version.{Version as VersionOf};
ghost use Rattle.tmem_record.specs.Layout.{image_at, end_at};
ghost use Rattle.tmem_image.specs.Spelling.{IsImage};
ghost use Rattle.tmem_image.specs.Image.{IsGeneration, HoldsImage, ChoosesCopy, HasHead};
ghost use Rattle.tmem_image.specs.Room.{IsImageRoom};

use crate::reading::{ImageState, read_image};
use crate::room::ImageRoom;
use tmem_disk::{DeviceFault, Disk};
use tmem_fault::Fault;
use tmem_gate::device::{read, read_piece};
use tmem_gate::reads_open;
use tmem_record::Layout;
use tmem_record::bytes::number_at;

// The gate of an image copy, and its generation.
const FRONT_BYTES: usize = 9;

/// Which copy is chosen: the open one, and of two open ones the one of the greater generation. `Damaged` where none is
/// open, or both are open over one generation; and `Device` where a read failed.
pub fn choose<D: Disk>(disk: &mut D, layout: Layout) -> Result<u8, Fault>
    requires { end_at layout.vars layout.slots ≤ (D.view disk.old).capacity }
    ensures uses { Uses (D.view disk.old) (D.view disk.new) result }
    ensures reads_only { OnlyReads (D.view disk.old) (D.view disk.new) }
    ensures one { IfOk result (λ copy. copy ≤ 1) }
    ensures found { (D.view disk.new).keeps_model → IfOk result (λ copy. ChoosesCopy layout.vars copy (D.view disk.old).seen) }
    ensures errors { IfErr result (λ f. (f ≡ Fault.Device) ⊎ (f ≡ Fault.Damaged)) }
    ensures read_failed { IsErrOf result Fault.Device → (D.view disk.new).last_fault ≡ Some DeviceFault.Read }
    ensures refused { IfErr result (IsWhyNone ((D.view disk.new).keeps_model → (copy : ℕ) → ChoosesCopy layout.vars copy (D.view disk.old).seen → ⊥)) }
{
    let first = head_at(disk, layout.image(0))?;
    let second = head_at(disk, layout.image(1))?;
    greater(first, second).ok_or(Fault::Damaged)
}

/// Reads the image of a copy, of either version, by one read, into the room that is given. `Damaged` where the copy holds
/// none; and `Device` where the read failed. It takes no memory.
pub fn load<D: Disk>(
    disk: &mut D,
    layout: Layout,
    copy: u8,
    room: ImageRoom,
) -> Result<ImageState, Fault>
    requires fits { end_at layout.vars layout.slots ≤ (D.view disk.old).capacity }
    requires one { copy ≤ 1 }
    requires room { IsImageRoom layout.vars room }
    ensures uses { Uses (D.view disk.old) (D.view disk.new) result }
    ensures reads_only { OnlyReads (D.view disk.old) (D.view disk.new) }
    ensures number { IfOk result (λ image. IsGeneration image.generation) }
    ensures fits { IfOk result (λ image. IsImage layout.vars image.state) }
    ensures found { (D.view disk.new).keeps_model → IfOk result (λ image. HoldsImage image.version layout.vars copy image.generation image.state (D.view disk.old).seen) }
    ensures read_failed { IsErrOf result Fault.Device → (D.view disk.new).last_fault ≡ Some DeviceFault.Read }
    ensures refused { IfErr result (IsWhyNone ((D.view disk.new).keeps_model → (v : VersionOf) (generation : ℕ) (s : StateOf) →
        HoldsImage v layout.vars copy generation s (D.view disk.old).seen → ⊥)) }
{
    let ImageRoom {
        bytes,
        names,
        values,
    } = room;
    let bytes = read_piece(disk, layout.image(copy), bytes)?;
    if !reads_open(&bytes, 0) {
        return Err(Fault::Damaged);
    }
    read_image(&bytes[1..], layout.vars, names, values).ok_or(Fault::Damaged)
}

// The generation of the cell at an offset, where it is open.
fn head_at<D: Disk>(disk: &mut D, at: u64) -> Result<Option<u64>, Fault>
    requires { at + 9 ≤ (D.view disk.old).capacity }
    ensures uses { Uses (D.view disk.old) (D.view disk.new) result }
    ensures reads_only { OnlyReads (D.view disk.old) (D.view disk.new) }
    ensures found { (D.view disk.new).keeps_model → IfOk result (λ head. HasHead at head (D.view disk.old).seen) }
    ensures err { IfErr result (λ f. f ≡ Fault.Device) }
    ensures last { OnErr result ((D.view disk.new).last_fault ≡ Some DeviceFault.Read) }
{
    let mut head = [0; FRONT_BYTES];
    read(disk, at, &mut head)?;
    if !reads_open(&head, 0) {
        return Ok(None);
    }
    Ok(Some(number_at(&head, 1)))
}

// The copy of the greater generation, of those that are open.
fn greater(first: Option<u64>, second: Option<u64>) -> Option<u8>
    ensures one { IfSome result (λ copy. copy ≤ 1) }
    ensures found { (vars : ℕ) (c : List ℕ) → HasHead (image_at vars 0) first c → HasHead (image_at vars 1) second c →
        IfSome result (λ copy. ChoosesCopy vars copy c) }
    ensures none { (vars : ℕ) (c : List ℕ) → HasHead (image_at vars 0) first c → HasHead (image_at vars 1) second c →
        IfNone result ((copy : ℕ) → ChoosesCopy vars copy c → ⊥) }
{
    match (first, second) {
        (Some(one), Some(other)) if one == other => None,
        (Some(one), Some(other)) if one < other => Some(1),
        (Some(_), _) => Some(0),
        (None, Some(_)) => Some(1),
        (None, None) => None,
    }
}
