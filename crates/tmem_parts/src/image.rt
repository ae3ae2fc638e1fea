//! An image copy.
ghost use Rattle.std.specs.Prelude.{◌≡◌, ◌⊎◌, ◌≤◌, length, IfOk, IfErr};
ghost use Rattle.tmem_record.specs.Layout.{end_at};
ghost use Rattle.tmem_parts.specs.Parts.{IsImageIn};

use crate::copy::disk_of;
use std::alloc::Global;
use tmem_fault::Fault;
use tmem_gate::reads_open;
use tmem_image::{ImageRoom, ImageState, load};
use tmem_record::Layout;

/// What an image copy of some bytes holds.
#[derive(Drop)]
pub enum Image {
    /// Its gate is closed, and nothing behind it counts.
    Closed,
    /// It is open over this image.
    Open(ImageState),
    /// It is open, and over no image.
    Damaged,
}

/// Reads an image copy. The only error is want of memory, or a failure of the copy of the bytes, which does not happen.
pub fn image_of(alloc: Global, bytes: &[u8], layout: Layout, copy: u8) -> Result<Image, Fault>
    requires long { end_at layout.vars layout.slots ≤ length bytes.now }
    requires one { copy ≤ 1 }
    ensures image { IfOk result (IsImageIn layout.vars copy bytes.now) }
    ensures errors { IfErr result (λ fault. (fault ≡ Fault.Memory) ⊎ (fault ≡ Fault.Device)) }
{
    if !reads_open(bytes, layout.image(copy) as usize) {
        return Ok(Image::Closed);
    }
    let room = ImageRoom::new(alloc, layout)?;
    let mut disk = disk_of(alloc, bytes)?;
    match load(&mut disk, layout, copy, room) {
        Ok(image) => Ok(Image::Open(image)),
        Err(Fault::Damaged) => Ok(Image::Damaged),
        Err(_) => Err(Fault::Device),
    }
}
