// Recovery, and then an image of version 2 where the one that was found is of version 1.
ghost use Rattle.std.specs.Prelude.{◌≡◌, ◌≢◌, ◌⊎◌, ◌<◌, ◌≤◌, ◌+◌, ◌*◌, ℕ, length, IfOk, OnOk, IfErr};
ghost use Rattle.tmem_disk.specs.Disk.{AtEachMoment, IsSynced, LeavesOnly};
ghost use Rattle.tmem_gate.specs.Calls.{Uses, OnlyReads, WritesWithin};
ghost use Rattle.tmem_gate.specs.Gate.{StandsClosed};
ghost use Rattle.tmem_record.specs.Layout.{image_at, image_size, slot_at, end_at};
ghost use Rattle.tmem_effect.specs.State.{State};
ghost use Rattle.tmem_image.specs.Image.{IsGeneration, other_copy};
ghost use Rattle.tmem_image.specs.Room.{IsImageRoom};
ghost use Rattle.tmem_redolog.specs.Room.{IsLogRoom};
ghost use Rattle.tmem_journal.specs.Contents.{Position, position_at, position_in, migrated, ContentRepresents, ContentRepresentsState, NeedsNoMigration, IsSpentAt};
ghost use Rattle.tmem_journal.specs.Mended.{MendsDevice, RecoversDevice, IsFoundAt, SameBesideCopy};
ghost use Rattle.tmem_journal.specs.Refusals.{IsWhyFound, IsRefusedBy};

use crate::recovery::{Found, recover};
use crate::renewing::renew;
use tmem_disk::Disk;
use tmem_fault::Fault;
use tmem_image::{ALL_PAGES, ImageRoom};
use tmem_record::Layout;
use tmem_redolog::LogRoom;
use tmem_state::Version;

/// Recovers the state that a device represents, and makes one checkpoint where its image is of version 1. Refused as `recover`
/// is; by `Spent` where such an image is of the last generation; and by `Device` where a call of the device fails. It takes
/// no memory but what it is given.
pub(crate) fn recover_current<D: Disk>(
    disk: &mut D,
    layout: Layout,
    image: ImageRoom,
    log: LogRoom,
) -> Result<Found, Fault>
    requires fits { end_at layout.vars layout.slots ≤ (D.view disk.old).capacity }
    requires image { IsImageRoom layout.vars image }
    requires log { IsLogRoom layout.slots log }
    ensures uses { Uses (D.view disk.old) (D.view disk.new) result }
    ensures found { (D.view disk.new).keeps_model → IfOk result (λ f. IsFoundAt layout.vars layout.slots (D.view disk.old).seen f.state (position_in f.copy f.log)) }
    ensures refused { IfErr result (IsWhyFound (λ f. (D.view disk.new).keeps_model → IsRefusedBy layout.vars layout.slots (D.view disk.old).seen f)) }
    ensures recovers { RecoversDevice layout.vars layout.slots (D.view disk.old) (D.view disk.new) }

    // Without a migration nothing but gates behind the log is written.
    ensures mends { NeedsNoMigration layout.vars layout.slots (D.view disk.old).seen → MendsDevice layout.vars layout.slots (D.view disk.old) (D.view disk.new) }
    ensures spent_mends { IfErr result (λ f. f ≡ Fault.Spent → MendsDevice layout.vars layout.slots (D.view disk.old) (D.view disk.new)) }

    // In a migration a read gives what it gave before, but in the copy that is not chosen, and for open gates of the log.
    ensures migrates { (D.view disk.new).keeps_model → (p : Position) (s : State) → ContentRepresents layout.vars layout.slots p s (D.view disk.old).seen
        → SameBesideCopy layout.vars layout.slots (other_copy p.copy) (D.view disk.old).seen (D.view disk.new).seen }
    ensures refused_reads_only { IfErr result (λ f. f ≢ Fault.Device → f ≢ Fault.Spent → OnlyReads (D.view disk.old) (D.view disk.new)) }
    ensures synced { OnOk result (IsSynced (D.view disk.new)) }
    ensures sure { IfOk result (λ f. LeavesOnly (D.view disk.new) (ContentRepresents layout.vars layout.slots (position_in f.copy f.log) f.state)) }
    ensures closed { IfOk result (λ f. (k : ℕ) → f.log.used ≤ k → k < layout.slots → StandsClosed (slot_at layout.vars k) (D.view disk.new)) }
    ensures one { IfOk result (λ f. f.copy ≤ 1) }
    ensures number { IfOk result (λ f. IsGeneration f.log.generation) }
    ensures sized { IfOk result (λ f. (length f.state.values ≡ layout.vars) × (f.log.used ≤ layout.slots)) }
{
    let found = recover(disk, layout, image, log)?;
    migrate(disk, layout, found)
}

// Writes the state that was found as an image of version 2, where its image is of version 1. `Spent` where that is of the last
// generation, before anything is written; `Device` where a call of the device failed: a crash leaves the old image with its log,
// or the new one. No page of the copy that is written counts as one that holds the state's values already.
fn migrate<D: Disk>(disk: &mut D, layout: Layout, found: Found) -> Result<Found, Fault>
    requires room { end_at layout.vars layout.slots ≤ (D.view disk.old).capacity }
    requires one { found.copy ≤ 1 }
    requires number { IsGeneration found.log.generation }
    requires sized { (length found.state.values ≡ layout.vars) × (found.log.used ≤ layout.slots) }
    requires synced { IsSynced (D.view disk.old) }
    requires stands { LeavesOnly (D.view disk.old) (ContentRepresents layout.vars layout.slots (position_at found.version found.copy found.log) found.state) }
    requires closed { (k : ℕ) → found.log.used ≤ k → k < layout.slots → StandsClosed (slot_at layout.vars k) (D.view disk.old) }
    ensures uses { Uses (D.view disk.old) (D.view disk.new) result }
    ensures version { IfOk result (λ f. f.version ≡ Version.Two) }
    ensures state { IfOk result (λ f. f.state ≡ found.state) }
    ensures position { IfOk result (λ f. position_in f.copy f.log ≡ migrated (position_at found.version found.copy found.log)) }
    ensures refused { IfErr result (λ f. (f ≡ Fault.Device) ⊎ ((f ≡ Fault.Spent) × IsSpentAt (position_at found.version found.copy found.log))) }
    ensures spent { IfErr result (λ f. f ≡ Fault.Spent → disk.new ≡ disk.old) }
    ensures current { found.version ≡ Version.Two → disk.new ≡ disk.old }
    ensures elsewhere { WritesWithin (image_at layout.vars 0) (2 * image_size layout.vars + 4096 * layout.slots) (D.view disk.old) (D.view disk.new) }
    ensures beside { (D.view disk.new).keeps_model → SameBesideCopy layout.vars layout.slots (other_copy found.copy) (D.view disk.old).seen (D.view disk.new).seen }
    ensures any_moment { AtEachMoment (D.view disk.old) (D.view disk.new) (ContentRepresentsState layout.vars layout.slots found.state) }
    ensures stands { LeavesOnly (D.view disk.new) (ContentRepresentsState layout.vars layout.slots found.state) }
    ensures synced { OnOk result (IsSynced (D.view disk.new)) }
    ensures sure { IfOk result (λ f. LeavesOnly (D.view disk.new) (ContentRepresents layout.vars layout.slots (position_in f.copy f.log) f.state)) }
    ensures closed { IfOk result (λ f. (k : ℕ) → f.log.used ≤ k → k < layout.slots → StandsClosed (slot_at layout.vars k) (D.view disk.new)) }
    ensures one { IfOk result (λ f. f.copy ≤ 1) }
    ensures number { IfOk result (λ f. IsGeneration f.log.generation) }
    ensures few { IfOk result (λ f. f.log.used ≤ layout.slots) }
{
    match found.version {
        Version::Two => return Ok(found),
        Version::One => {}
    }
    if found.log.generation == u64::MAX {
        return Err(Fault::Spent);
    }
    let Found {
        version,
        copy,
        state,
        mut log,
    } = found;
    match renew(disk, layout, version, copy, &mut log, &state, ALL_PAGES) {
        Ok(()) => Ok(Found {
            version: Version::Two,
            copy: 1 - copy,
            state,
            log,
        }),
        Err(_) => Err(Fault::Device),
    }
}
