//! A slot of the log.
ghost use Rattle.std.specs.Prelude.{◌≤◌, ◌<◌, length};
ghost use Rattle.tmem_record.specs.Layout.{end_at};
ghost use Rattle.tmem_parts.specs.Parts.{IsSlotIn};

use tmem_gate::reads_open;
use tmem_record::{Head, Layout, SLOT_BYTES, read_batch};
use tmem_state::{Records, Version};

/// What a log slot of some bytes holds.
#[derive(Clone, Copy)]
pub enum Slot {
    /// Its gate is closed, and nothing behind it counts.
    Closed,
    /// It is open over a batch.
    Open(Head),
    /// It is open, and over no batch.
    Damaged,
}

/// Reads a log slot in the grammar of a version. The records of its batch are read into those that are lent.
pub fn slot_of(
    bytes: &[u8],
    layout: Layout,
    k: u16,
    version: Version,
    records: &mut Records,
) -> Slot
    requires long { end_at layout.vars layout.slots ≤ length bytes.now }
    requires there { k < layout.slots }
    ensures { IsSlotIn version layout.vars k bytes.now records.new result }
{
    let at = layout.slot(k) as usize;
    if !reads_open(bytes, at) {
        return Slot::Closed;
    }
    match read_batch(
        &bytes[at + 1..at + SLOT_BYTES],
        layout.vars,
        version,
        records,
    ) {
        Some(head) => Slot::Open(head),
        None => Slot::Damaged,
    }
}
