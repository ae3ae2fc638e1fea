// A store that was opened.
ghost use Rattle.std.specs.Prelude.{◌≡◌, [], false, length, IfOk, IfErr};
ghost use Rattle.tmem_invariants.specs.Meanings.{Meanings};
ghost use Rattle.tmem_core.specs.Held.{core_state, waiting_of, durable_of, is_shut_of, core_table};
ghost use Rattle.tmem_core.specs.Program.{IsProgramOf};
ghost use Rattle.tmem_journal.specs.Calls.{FitsOn};
ghost use Rattle.tmem_journal.specs.Held.{disk_of, doubtful_of, is_closed_of, journal_state};
ghost use Rattle.tmem_tree.specs.Signatures.{AreMeant, AreWithin, names_of};

use std::alloc::{AllocError, Global};
use tmem_core::Core;
use tmem_disk::Disk;
use tmem_fault::Fault;
use tmem_invariants::Invariants;
use tmem_journal::Journal;
use tmem_state::Batch;
use tmem_tree::{Signature, signatures_of};

/// A store that was opened: a core of the state that was found, with the table that was handed in, and the journal that goes
/// on from there. Nothing waits, and nothing is doubtful.
#[derive(Drop)]
pub struct Opening<D: Disk, T: Invariants> {
    pub core: Core<T>,
    pub journal: Journal<D>,
    /// What a flush hands to the journal.
    pub batch: Batch,
    /// What a plan has to know of the table's invariants, in its order.
    pub signatures: Vec<Signature>,
    pub ghost found: { core_state core ≡ journal_state journal },
    pub ghost waits: { waiting_of core ≡ [] },
    pub ghost known: { durable_of core ≡ (core_state core).count },
    pub ghost running: { is_shut_of core ≡ false },
    pub ghost open: { is_closed_of journal ≡ false },
    pub ghost sure: { doubtful_of journal ≡ journal_state journal },
    pub ghost named: { names_of signatures.items ≡ T.names (core_table core) },
    pub ghost meant: { (m : Meanings) → T.is_stated (core_table core) m → AreMeant m signatures.items },
    pub ghost within: { AreWithin (length (core_state core).values) signatures.items },
}

impl<D: Disk + Drop, T: Invariants + Drop> Opening<D, T> {
    ghost use Rattle.tmem_opening.specs.Held.{opening_device_after, answer_alone};
    ghost use Rattle.tmem_opening.specs.Opening.{IsOpened, FoundIs, OpeningRefused, RecoversEither};

    /// Opens a device of these numbers: finds what its content represents, with these invariants. Refused by `Geometry` where
    /// the numbers are out of limits, the device is smaller than their layout, or it was formatted for others; by
    /// `NotFormatted` where it lacks the open block 0 with its letters; else by `Damaged` where its content represents no
    /// state; by `Missing` with the first registered name, by bytes, that the table lacks; by `Broken` with the first
    /// registered invariant, in the table's order, that is false; by `Spent` where its image is of format version 1 and of the
    /// last generation, so that none of version 2 can follow; by `Memory`, before the device is touched or where the state that
    /// was found is sound; by `Device` where a call of the device failed. The device and the table are handed back with the
    /// refusal. Gates that read open behind the log are closed, and where the image is of version 1, the state is written as the
    /// next image, of version 2, before the invariants are looked at. Nothing else is written: nothing at all before a refusal by
    /// `Geometry`, `NotFormatted` or `Damaged`.
    pub fn open(
        alloc: Global,
        disk: D,
        vars: u16,
        slots: u16,
        table: T,
    ) -> Result<Opening<D, T>, (Fault, D, T)>
        requires { T.vars table ≡ vars }

        // The state that the content represents is found, and no invariant that is registered in it is false there.
        ensures opened { IfOk result (λ o. IsOpened vars slots table (D.view disk) o) }
        ensures refused { IfErr result (λ e. OpeningRefused (IsProgramOf T.Invariants table) vars slots (D.view disk) e.0 (D.view e.1)) }
        ensures back { IfErr result (λ e. e.2 ≡ table) }

        // Where every crash left one of two states, and both are sound, one of them is found, unless memory or the device
        // fails, or no image of version 2 can follow.
        ensures recovers { RecoversEither FoundIs (IsProgramOf T.Invariants table) vars slots (D.view disk) (opening_device_after result) (answer_alone result) }

        // Where the numbers do not fit the device, no call of it is made: the one that was handed in is handed back.
        ensures untouched { ¬ FitsOn vars slots (D.view disk).capacity → IfErr result (λ e. e.1 ≡ disk) }
    {
        let journal = match Journal::open(alloc, disk, vars, slots) {
            Ok(journal) => journal,
            Err((fault, disk)) => return Err((fault, disk, table)),
        };
        // whether these found room is looked at last, so that want of memory hides no refusal of the state
        let made = parts(alloc, &table);
        let core = match Core::new(alloc, journal.state(), table) {
            Ok(core) => core,
            Err((fault, table)) => return Err((fault, journal.into_disk(), table)),
        };
        match made {
            Ok((signatures, batch)) => Ok(Opening {
                core,
                journal,
                batch,
                signatures,
            }),
            Err(_) => Err((Fault::Memory, journal.into_disk(), core.into_table())),
        }
    }

    /// The device, where the store is not used after all.
    pub fn into_disk(self) -> D
        ensures { result ≡ disk_of self.journal }
    {
        let Opening { journal, .. } = self;
        journal.into_disk()
    }
}

// What takes memory beside the journal and the core.
fn parts<T: Invariants>(alloc: Global, table: &T) -> Result<(Vec<Signature>, Batch), AllocError>
    ensures named { IfOk result (λ made. names_of made.0.items ≡ T.names table.now) }
    ensures meant { (m : Meanings) → T.is_stated table.now m → IfOk result (λ made. AreMeant m made.0.items) }
    ensures within { IfOk result (λ made. AreWithin (T.vars table.now) made.0.items) }
{
    let signatures = signatures_of(alloc, table)?;
    let batch = Batch::new(alloc)?;
    Ok((signatures, batch))
}
