// Recovery: finds the state that a device represents.
ghost use Rattle.std.specs.Prelude.{◌≡◌, ◌≢◌, ◌≤◌, ◌<◌, ℕ, length, IfOk, OnOk, IfErr};
ghost use Rattle.tmem_disk.specs.Disk.{IsSynced};
ghost use Rattle.tmem_gate.specs.Calls.{Uses, OnlyReads};
ghost use Rattle.tmem_gate.specs.Gate.{StandsClosed};
ghost use Rattle.tmem_record.specs.Layout.{slot_at, end_at};
ghost use Rattle.tmem_image.specs.Image.{IsGeneration};
ghost use Rattle.tmem_image.specs.Room.{IsImageRoom};
ghost use Rattle.tmem_redolog.specs.Room.{IsLogRoom};
ghost use Rattle.tmem_journal.specs.Contents.{position_at, ContentRepresents};
ghost use Rattle.tmem_journal.specs.Mended.{MendsDevice};
ghost use Rattle.tmem_journal.specs.Refusals.{IsWhyRead, IsRefusedBy};

use crate::block::may_follow;
use crate::parts::found_block;
use tmem_disk::Disk;
use tmem_fault::Fault;
use tmem_gate::device::sync;
use tmem_image::{ImageRoom, ImageState, choose, load};
use tmem_record::Layout;
use tmem_redolog::{Log, LogRoom, close_stale, scan};
use tmem_state::{State, Version};

/// What recovery found: the chosen image copy and its version, the state, and where the next batch goes.
#[derive(Drop)]
pub(crate) struct Found {
    pub(crate) version: Version,
    pub(crate) copy: u8,
    pub(crate) state: State,
    pub(crate) log: Log,
}

/// Finds the state that a device represents, and closes the gates that read open behind its log. Refused by `NotFormatted`
/// where block 0 is closed or lacks its magic; by `Geometry` where the device was formatted for other numbers; else by
/// `Damaged` where it represents no state; and by `Device` where a call of the device fails. Nothing else is written. It
/// takes no memory but what it is given.
pub(crate) fn recover<D: Disk>(
    disk: &mut D,
    layout: Layout,
    image: ImageRoom,
    log: LogRoom,
) -> Result<Found, Fault>
    requires fits { end_at layout.vars layout.slots ≤ (D.view disk.old).capacity }
    requires image { IsImageRoom layout.vars image }
    requires log { IsLogRoom layout.slots log }
    ensures uses { Uses (D.view disk.old) (D.view disk.new) result }
    ensures found { (D.view disk.new).keeps_model → IfOk result (λ f. ContentRepresents layout.vars layout.slots (position_at f.version f.copy f.log) f.state (D.view disk.old).seen) }
    ensures refused { IfErr result (IsWhyRead (λ f. (D.view disk.new).keeps_model → IsRefusedBy layout.vars layout.slots (D.view disk.old).seen f)) }
    ensures mends { MendsDevice layout.vars layout.slots (D.view disk.old) (D.view disk.new) }
    ensures refused_reads_only { IfErr result (λ f. f ≢ Fault.Device → OnlyReads (D.view disk.old) (D.view disk.new)) }
    ensures synced { OnOk result (IsSynced (D.view disk.new)) }
    ensures closed { IfOk result (λ f. (k : ℕ) → f.log.used ≤ k → k < layout.slots → StandsClosed (slot_at layout.vars k) (D.view disk.new)) }
    ensures one { IfOk result (λ f. f.copy ≤ 1) }
    ensures number { IfOk result (λ f. IsGeneration f.log.generation) }
    ensures sized { IfOk result (λ f. (length f.state.values ≡ layout.vars) × (f.log.used ≤ layout.slots)) }
{
    let found = look_up(disk, layout, image, log)?;
    match close_stale(disk, layout, &found.log) {
        Ok(()) => Ok(found),
        Err(_) => Err(Fault::Device),
    }
}

// Finds the state that a device represents, once it is synced. It writes nothing.
fn look_up<D: Disk>(
    disk: &mut D,
    layout: Layout,
    image: ImageRoom,
    log: LogRoom,
) -> Result<Found, Fault>
    requires fits { end_at layout.vars layout.slots ≤ (D.view disk.old).capacity }
    requires image { IsImageRoom layout.vars image }
    requires log { IsLogRoom layout.slots log }
    ensures uses { Uses (D.view disk.old) (D.view disk.new) result }
    ensures found { (D.view disk.new).keeps_model → IfOk result (λ f. ContentRepresents layout.vars layout.slots (position_at f.version f.copy f.log) f.state (D.view disk.old).seen) }
    ensures refused { IfErr result (IsWhyRead (λ f. (D.view disk.new).keeps_model → IsRefusedBy layout.vars layout.slots (D.view disk.old).seen f)) }
    ensures reads_only { OnlyReads (D.view disk.old) (D.view disk.new) }
    ensures synced { OnOk result (IsSynced (D.view disk.new)) }
    ensures one { IfOk result (λ f. f.copy ≤ 1) }
    ensures number { IfOk result (λ f. IsGeneration f.log.generation) }
    ensures sized { IfOk result (λ f. (length f.state.values ≡ layout.vars) × (f.log.used ≤ layout.slots)) }
{
    sync(disk)?;
    let block = found_block(disk, layout)?;
    let copy = choose(disk, layout)?;
    let ImageState {
        version,
        generation,
        mut state,
    } = load(disk, layout, copy, image)?;
    if !may_follow(block, version) {
        return Err(Fault::Damaged);
    }
    let log = scan(disk, layout, generation, &mut state, log, version)?;
    Ok(Found {
        version,
        copy,
        state,
        log,
    })
}
