// Writes the content of an empty store.
ghost use Rattle.std.specs.Prelude.{◌≡◌, ◌⊎◌, ◌≤◌, ◌*◌, ◌++◌, drop, replicate, OnOk, IfErr, IsErrOf};
ghost use Rattle.tmem_disk.specs.Disk.{AtEachMoment, LeavesOnly, ReadsAs, IsSynced};
ghost use Rattle.tmem_effect.specs.State.{first_state};
ghost use Rattle.tmem_record.specs.Layout.{end_at};
ghost use Rattle.tmem_journal.specs.Formatted.{formatted, header_bytes};
ghost use Rattle.tmem_journal.specs.Contents.{first_position, ContentRepresents};
ghost use Rattle.tmem_gate.specs.Calls.{WritesWithin, Uses};
ghost use Rattle.tmem_gate.specs.Gate.{IsClosed};
ghost use Rattle.tmem_journal.specs.Calls.{FitsOn};

use crate::block::spell_block;
use crate::calls::put_cell;
use tmem_disk::Disk;
use tmem_fault::Fault;
use tmem_gate::device::{sync, write};
use tmem_image::{HEADER_BODY_BYTES, VERSION_BYTE_AT};
use tmem_record::Layout;
use tmem_record::bytes::put;
use tmem_state::Version;

// How many bytes are erased by one write at the most.
const PIECE_BYTES: usize = 16384;

/// Formats a device for so many variables and log slots, in version 2: no transaction, every variable 0. Refused by
/// `Geometry`, before anything is written, where a number is out of its limits or the device is too small; by `Device` where
/// a call of the device fails, which may leave anything in the layout, an old store too: format it again.
pub fn format<D: Disk>(disk: &mut D, vars: u16, slots: u16) -> Result<(), Fault>
    ensures uses { Uses (D.view disk.old) (D.view disk.new) result }
    ensures fits { OnOk result (FitsOn vars slots (D.view disk.old).capacity) }
    ensures geometry { IsErrOf result Fault.Geometry → ¬ FitsOn vars slots (D.view disk.old).capacity }
    ensures unfit { ¬ FitsOn vars slots (D.view disk.old).capacity → IsErrOf result Fault.Geometry }
    ensures untouched { IsErrOf result Fault.Geometry → disk.new ≡ disk.old }
    ensures errors { IfErr result (λ f. (f ≡ Fault.Geometry) ⊎ (f ≡ Fault.Device)) }
    ensures stands { OnOk result (LeavesOnly (D.view disk.new) (ContentRepresents vars slots first_position (first_state vars))) }

    // After `Ok` a read gives exactly this, and so does a crash. Nothing behind the end is written, whatever is answered.
    ensures written { OnOk result (ReadsAs (D.view disk.new) (formatted vars slots ++ drop (end_at vars slots) (D.view disk.old).seen)) }
    ensures durable { OnOk result (IsSynced (D.view disk.new)) }
    ensures elsewhere { WritesWithin 0 (end_at vars slots) (D.view disk.old) (D.view disk.new) }
{
    let layout = Layout::new(vars, slots)?;
    let end = layout.end();
    if disk.size() < end {
        return Err(Fault::Geometry);
    }
    erase(disk, end)?;
    build(disk, layout)
}

// Puts the first image on a device of zeros, and then block 0.
fn build<D: Disk>(disk: &mut D, layout: Layout) -> Result<(), Fault>
    requires room { end_at layout.vars layout.slots ≤ (D.view disk.old).capacity }
    requires zeros { ReadsAs (D.view disk.old) (replicate (end_at layout.vars layout.slots) 0 ++ drop (end_at layout.vars layout.slots) (D.view disk.old).seen) }
    requires synced { IsSynced (D.view disk.old) }
    ensures uses { Uses (D.view disk.old) (D.view disk.new) result }
    ensures written { OnOk result (ReadsAs (D.view disk.new) (formatted layout.vars layout.slots ++ drop (end_at layout.vars layout.slots) (D.view disk.old).seen)) }
    ensures durable { OnOk result (IsSynced (D.view disk.new)) }
    ensures elsewhere { WritesWithin 0 (end_at layout.vars layout.slots) (D.view disk.old) (D.view disk.new) }
    ensures err { IfErr result (λ f. f ≡ Fault.Device) }

    // A crash leaves block 0 closed, so that a device is told not to be formatted, or the whole store.
    ensures any_moment { AtEachMoment (D.view disk.old) (D.view disk.new)
        (λ c. IsClosed 0 c ⊎ ContentRepresents layout.vars layout.slots first_position (first_state layout.vars) c) }
{
    let block = spell_block(Version::Two, layout.vars, layout.slots);
    put_cell(disk, layout.image(0), &first_header())?;
    put_cell(disk, 0, &block)
}

// The header of the first image, without its gate: generation 1, no transaction and no name, and the version byte of version 2.
fn first_header() -> [u8; HEADER_BODY_BYTES]
    ensures { result ≡ header_bytes }
{
    let mut bytes = [0; HEADER_BODY_BYTES];
    put(&mut bytes, 0, &1u64.to_le_bytes());
    put(&mut bytes, VERSION_BYTE_AT, &[Version::Two.byte()]);
    bytes
}

// Writes zeros up to an offset, in large pieces, and syncs.
fn erase<D: Disk>(disk: &mut D, end: u64) -> Result<(), Fault>
    requires { end ≤ (D.view disk.old).capacity }
    ensures uses { Uses (D.view disk.old) (D.view disk.new) result }
    ensures zeros { OnOk result (ReadsAs (D.view disk.new) (replicate end 0 ++ drop end (D.view disk.old).seen)) }
    ensures elsewhere { WritesWithin 0 end (D.view disk.old) (D.view disk.new) }
    ensures synced { OnOk result (IsSynced (D.view disk.new)) }
    ensures err { IfErr result (λ f. f ≡ Fault.Device) }
{
    let zeros = [0; PIECE_BYTES];
    let pieces = end / PIECE_BYTES as u64;
    for piece in 0..pieces {
        write(disk, PIECE_BYTES as u64 * piece, &zeros)?;
    }
    let rest = (end % PIECE_BYTES as u64) as usize;
    write(disk, PIECE_BYTES as u64 * pieces, &zeros[..rest])?;
    sync(disk)
}
