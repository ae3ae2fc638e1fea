// Block 0 of a device, by one read.
ghost use Rattle.std.specs.Prelude.{◌≤◌, IfOk, IfErr};
ghost use Rattle.tmem_gate.specs.Calls.{Uses, OnlyReads};
ghost use Rattle.tmem_gate.specs.Gate.{IsOpenOver};
ghost use Rattle.tmem_record.specs.Layout.{end_at};
ghost use Rattle.tmem_journal.specs.BlockSpelling.{block_body};
ghost use Rattle.tmem_journal.specs.Refusals.{IsWhyRead};
ghost use Rattle.tmem_journal.specs.Parts.{IsBlockBy};

use crate::block::read_block;
use tmem_disk::Disk;
use tmem_fault::Fault;
use tmem_gate::device::read;
use tmem_gate::reads_open;
use tmem_record::{BLOCK_BYTES, Layout};
use tmem_state::Version;

// Checks that block 0 is open, and of this layout, and answers which version's it is.
pub(crate) fn found_block<D: Disk>(disk: &mut D, layout: Layout) -> Result<Version, Fault>
    requires { end_at layout.vars layout.slots ≤ (D.view disk.old).capacity }
    ensures uses { Uses (D.view disk.old) (D.view disk.new) result }
    ensures reads_only { OnlyReads (D.view disk.old) (D.view disk.new) }
    ensures found { (D.view disk.new).keeps_model → IfOk result (λ version. IsOpenOver 0 (block_body version layout.vars layout.slots) (D.view disk.old).seen) }
    ensures refused { IfErr result (IsWhyRead (λ f. (D.view disk.new).keeps_model → IsBlockBy layout.vars layout.slots (D.view disk.old).seen f)) }
{
    let mut block = [0; BLOCK_BYTES];
    read(disk, 0, &mut block)?;
    if !reads_open(&block, 0) {
        return Err(Fault::NotFormatted);
    }
    read_block(&block[1..], layout)
}
