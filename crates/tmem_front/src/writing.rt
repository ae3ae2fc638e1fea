// How a batch is written under the journal's lock.
ghost use Rattle.std.specs.Prelude.{◌≡◌, ◌≤◌, true, false, length, IfOk, IfErr};
ghost use Rattle.tmem_seats.specs.Held.{side_of, batch_of};
ghost use Rattle.tmem_seats.specs.Flushing.{BatchGoesOn, IsFlushRefusal, IsFlusherRefusal};

use tmem_disk::Disk;
use tmem_fault::Fault;
use tmem_seats::{JournalSeat, StoreNaming};
use tmem_spine::Spine;

// Writes the batch that the journal aims at, and makes room in a full log where that is asked for.
pub(crate) fn write<D: Disk, N: StoreNaming>(
    journal: &mut JournalSeat<D, N>,
    spine: &Spine<N>,
    makes_room: bool,
) -> Result<u64, Fault>
    requires some { 1 ≤ length (batch_of journal.old) }
    requires goes_on { BatchGoesOn N.name.start N.opening (side_of journal.old).durable (batch_of journal.old) (side_of journal.old).aimed }
    ensures least { IfOk result (λ number. N.name.start ≤ number) }
    ensures plain { makes_room ≡ false → IfErr result IsFlushRefusal }
    ensures roomy { makes_room ≡ true → IfErr result IsFlusherRefusal }
{
    if makes_room {
        journal.write_with_room(spine)
    } else {
        journal.write(spine)
    }
}
