// The journal: a device, and the state that it represents.
ghost use Rattle.std.specs.Prelude.{◌≡◌, ◌≢◌, ◌≤◌, ◌<◌, ◌+◌, ◌*◌, ◌⊎◌, ℕ, [], false, Some, length, All, IfOk, IfErr, IfSome, IsErrOf};
ghost use Rattle.tmem_disk.specs.Disk.{LeavesOnly, AtEachMoment, SameSeenOutside, IsSynced, IsWriteOrSync};
ghost use Rattle.tmem_gate.specs.Calls.{Uses, OnlyReads, WritesWithin};
ghost use Rattle.tmem_gate.specs.Gate.{HasBody, StandsClosed};
ghost use Rattle.tmem_effect.specs.State.{State as StateOf, fold, StaysWithin};
ghost use Rattle.tmem_record.specs.Spelling.{batch_bytes};
ghost use Rattle.tmem_state.specs.declared.version.Version.TheVariants.{Two};
ghost use Rattle.tmem_record.specs.declared.codec.TheConstants.{SLOT_BODY_BYTES};
ghost use Rattle.tmem_record.specs.Layout.{image_at, image_size, slot_at, end_at};
ghost use Rattle.tmem_image.specs.Image.{IsGeneration, other_copy};
ghost use Rattle.tmem_image.specs.Pages.{HoldsOthers, pages_at};
ghost use Rattle.tmem_image.specs.Spare.{image_placed, AwaitsGate};
ghost use Rattle.tmem_journal.specs.Contents.{Position, next_image, position_in, ContentRepresents, ContentRepresentsState, ContentRepresentsEither, IsCurrent, NeedsNoMigration};
ghost use Rattle.tmem_journal.specs.Mended.{MendsDevice, RecoversDevice, IsFoundAt, SameBesideCopy};
ghost use Rattle.tmem_journal.specs.Calls.{FitsOn, effects_in, doubted, fault_alone};

use crate::buffer::Buffer;
use crate::committing::commit_all;
use crate::migrating::recover_current;
use crate::renewing::renew;
use crate::room::Room;
use std::alloc::Global;
use std::snapshot::Snapshot;
use tmem_disk::{DeviceFault, Disk};
use tmem_fault::Fault;
use tmem_image::{ALL_PAGES, pages_changed};
use tmem_record::Layout;
use tmem_redolog::{Log, append};
use tmem_state::{Batch, State, Version};

// Sets of pages, one for each image copy.
#[derive(Clone, Copy)]
struct Changed {
    // of the copy that is chosen
    chosen: u16,
    // of the other one, which the next image goes to
    spare: u16,
}

/// A device, and the state that it represents: the committed transactions that are durable. Once a call of the device has
/// failed in `flush` or in `checkpoint` it is closed, and writes nothing more.
pub struct Journal<D: Disk> {
    disk: D,
    layout: Layout,
    state: State,
    // which image copy is chosen
    copy: u8,
    // the pages of each image copy that may differ from the state
    changed: Changed,
    // where the next batch goes
    log: Log,
    is_closed: bool,
    buffer: Buffer,

    // the batch whose flush had an unknown outcome: for clauses alone, it takes no memory
    doubt: Option<Snapshot<Batch>>,

    /// The device has room for the layout.
    pub ghost room: { end_at layout.vars layout.slots ≤ (D.view disk).capacity },

    /// The state has a value for each variable.
    pub ghost sized: { length state.values ≡ layout.vars },

    /// There are two image copies.
    pub ghost one: { copy ≤ 1 },

    /// The generation of the chosen image, and of its log, is one that an image may have.
    pub ghost number: { IsGeneration log.generation },

    /// No more log slots are used than there are.
    pub ghost few: { log.used ≤ layout.slots },

    /// While it is open, no outcome is unknown.
    pub ghost certain: { is_closed ≡ false → effects_in doubt ≡ [] },

    /// Every crash leaves a content that represents this state, or for the one with the doubtful batch.
    pub ghost stands: { LeavesOnly (D.view disk) (ContentRepresentsEither layout.vars layout.slots state (fold state (effects_in doubt))) },

    /// The image of that content is of version 2: no opening of this device writes one.
    pub ghost current: { LeavesOnly (D.view disk) (IsCurrent layout.vars layout.slots) },

    /// While it is open, one that represents this state, at its position.
    pub ghost sure: { is_closed ≡ false → LeavesOnly (D.view disk) (ContentRepresents layout.vars layout.slots (position_in copy log) state) },

    /// While it is open, every write is synced.
    pub ghost synced: { is_closed ≡ false → IsSynced (D.view disk) },

    /// While it is open, each slot behind the log stands closed.
    pub ghost ahead: { is_closed ≡ false → (k : ℕ) → log.used ≤ k → k < layout.slots → StandsClosed (slot_at layout.vars k) (D.view disk) },

    /// While it is open, each page that the journal does not take for changed holds the state's values after every crash, in the chosen copy.
    pub ghost chosen_pages: { is_closed ≡ false → LeavesOnly (D.view disk) (HoldsOthers (pages_at layout.vars copy) layout.vars changed.chosen state.values) },

    /// So it does in the other copy.
    pub ghost spare_pages: { is_closed ≡ false → LeavesOnly (D.view disk) (HoldsOthers (pages_at layout.vars (other_copy copy)) layout.vars changed.spare state.values) },
}

// By hand, so that a function that drops one makes one call.
impl<D: Disk + Drop> Drop for Journal<D> {
    fn drop(self) {
        let Journal {
            disk: _disk,
            layout: _layout,
            state: _state,
            copy: _copy,
            changed: _changed,
            log: _log,
            is_closed: _is_closed,
            buffer: _buffer,
            doubt: _doubt,
        } = self;
    }
}

impl<D: Disk> Journal<D> {
    ghost use Rattle.tmem_journal.specs.Held.{disk_of, journal_device, journal_device_after, journal_layout, journal_state, doubtful_of, journal_position, is_closed_of, MayBe};
    ghost use Rattle.tmem_journal.specs.Journals.{Flushes, Checkpoints, FindsEither, IsOpeningRefused};

    /// Recovers the state that a device of these numbers represents. Where its image is of version 1, one checkpoint follows,
    /// which writes an image of version 2. Refused by `Geometry` where the numbers are out of limits, the device is smaller
    /// than their layout, or it was formatted for others; by `NotFormatted` where block 0 is closed or lacks its magic; else
    /// by `Damaged` where its content represents no state; by `Spent` where its image is of version 1 and of the last
    /// generation, so that no other can follow; by `Memory`, before the device is touched; by `Device` where a call of the
    /// device fails, which may leave the image of version 2 or not. The device is handed back with the refusal. Gates that
    /// read open behind the log are closed, and nothing else is written but for that checkpoint.
    pub fn open(alloc: Global, mut disk: D, vars: u16, slots: u16) -> Result<Journal<D>, (Fault, D)>
        ensures uses { Uses (D.view disk) (journal_device_after result) (fault_alone result) }
        ensures fits { IfOk result (λ j. ((journal_layout j).vars ≡ vars) × ((journal_layout j).slots ≡ slots) × FitsOn vars slots (D.view disk).capacity) }
        ensures fresh { IfOk result (λ j. (is_closed_of j ≡ false) × (doubtful_of j ≡ journal_state j)) }

        // The state that the content represented is found: at its position, or with the next image where it was of version 1.
        // What a read gives then represents it too.
        ensures found { IfOk result (λ j. (journal_device j).keeps_model → IsFoundAt vars slots (D.view disk).seen (journal_state j) (journal_position j)) }
        ensures stands { IfOk result (λ j. (journal_device j).keeps_model → ContentRepresents vars slots (journal_position j) (journal_state j) (journal_device j).seen) }
        ensures refused { IfErr result (λ e. IsOpeningRefused (D.view disk) vars slots e.0 (D.view e.1)) }

        // Where the numbers do not fit the device, no call of it is made: the one that was handed in is handed back. So is it
        // where memory is wanted, which is found out before anything is read: it stands in place of nothing that was found.
        ensures untouched { ¬ FitsOn vars slots (D.view disk).capacity → IfErr result (λ e. e.1 ≡ disk) }
        ensures memory { IfErr result (λ e. e.0 ≡ Fault.Memory → e.1 ≡ disk) }

        // Whatever is answered, a crash at any moment leaves a content that represents what one before it represented. Block 0 is
        // not written, nor anything behind the slots.
        ensures recovers { RecoversDevice vars slots (D.view disk) (journal_device_after result) }

        // Where no image of version 1 is found, nothing is written but gates behind the log that read open, and nothing at all
        // where the content represents no state; nor is anything else written before `Spent`.
        ensures mends { NeedsNoMigration vars slots (D.view disk).seen → MendsDevice vars slots (D.view disk) (journal_device_after result) }
        ensures spent_mends { IfErr result (λ e. e.0 ≡ Fault.Spent → MendsDevice vars slots (D.view disk) (D.view e.1)) }

        // Where the content represents a state, a read gives what it gave before, but in the image copy that is not chosen, and for
        // gates of the log that it gave open.
        ensures migrates { (journal_device_after result).keeps_model → (p : Position) (s : StateOf) → ContentRepresents vars slots p s (D.view disk).seen
            → SameBesideCopy vars slots (other_copy p.copy) (D.view disk).seen (journal_device_after result).seen }

        // Nothing at all is written before a refusal other than `Device` and `Spent`.
        ensures refused_reads_only { IfErr result (λ e. e.0 ≢ Fault.Device → e.0 ≢ Fault.Spent → OnlyReads (D.view disk) (D.view e.1)) }

        // Where every crash left one of two states, that one is found, unless memory or the device fails, or it cannot be
        // migrated.
        ensures either { (s t : StateOf) → FitsOn vars slots (D.view disk).capacity → LeavesOnly (D.view disk) (ContentRepresentsEither vars slots s t)
            → (journal_device_after result).keeps_model → FindsEither result s t }
    {
        let layout = match Layout::new(vars, slots) {
            Ok(layout) => layout,
            Err(fault) => return Err((fault, disk)),
        };
        if disk.size() < layout.end() {
            return Err((Fault::Geometry, disk));
        }
        let Room { image, log, buffer } = match Room::new(alloc, layout) {
            Ok(room) => room,
            Err(_) => return Err((Fault::Memory, disk)),
        };
        match recover_current(&mut disk, layout, image, log) {
            Ok(found) => Ok(Journal {
                disk,
                layout,
                state: found.state,
                copy: found.copy,
                changed: Changed {
                    chosen: ALL_PAGES,
                    spare: ALL_PAGES,
                },
                log: found.log,
                is_closed: false,
                buffer,
                doubt: None,
            }),
            Err(fault) => Err((fault, disk)),
        }
    }

    /// The numbers of variables and log slots.
    pub fn layout(&self) -> Layout
        ensures { result ≡ journal_layout self.now }
    {
        self.layout
    }

    /// The state after every transaction that is known durable.
    pub fn state(&self) -> &State
        ensures { result.now ≡ journal_state self.now }
    {
        &self.state
    }

    /// How many transactions are known durable.
    pub fn count(&self) -> u64
        ensures { result ≡ (journal_state self.now).count }
    {
        self.state.count()
    }

    /// Whether a failure of the device closed it.
    pub fn is_closed(&self) -> bool
        ensures { result ≡ is_closed_of self.now }
    {
        self.is_closed
    }

    /// How many slots of the log are free.
    pub fn free_slots(&self) -> u16
        ensures { result + (journal_position self.now).used ≡ (journal_layout self.now).slots }
    {
        self.layout.slots - self.log.used
    }

    /// The device.
    pub fn into_disk(self) -> D
        ensures { result ≡ disk_of self }
    {
        let Journal {
            disk: device,
            layout: _layout,
            state: _state,
            copy: _copy,
            changed: _changed,
            log: _log,
            is_closed: _is_closed,
            buffer: _buffer,
            doubt: _doubt,
        } = self;
        device
    }

    /// Makes a batch durable, and answers how many transactions are durable then. The batch is not empty, its effects are
    /// over the journal's variables, and the state is within the limits of counts and names after each of them. Refused by
    /// `Closed` once a call of the device has failed; by `LogFull` where every log slot is used; by `Device` where the write
    /// of the batch failed: no crash leaves any of it; and by `Unknown` where a sync or the write of a gate failed: a crash
    /// leaves the whole batch or none of it. After these two the journal is closed.
    pub fn flush(&mut self, batch: &Batch) -> Result<u64, Fault>
        requires some { 1 ≤ length batch.now }
        requires variables { All (λ e. All (λ w. w.0 < (journal_layout self.old).vars) e.writes) batch.now }
        requires within { StaysWithin (journal_state self.old) batch.now }
        ensures uses { Uses (journal_device self.old) (journal_device self.new) result }
        ensures layout { journal_layout self.new ≡ journal_layout self.old }
        ensures flushed { Flushes self.old batch.now result self.new }

        // Nothing outside the first slot behind the log changes. At `Device` its gate was not written. At `Unknown` a write
        // or a sync failed, and the bytes of the batch were written before.
        ensures elsewhere { WritesWithin (slot_at (journal_layout self.old).vars (journal_position self.old).used) 4096 (journal_device self.old) (journal_device self.new) }
        ensures gate_untouched { IsErrOf result Fault.Device →
            SameSeenOutside (slot_at (journal_layout self.old).vars (journal_position self.old).used + 1) SLOT_BODY_BYTES (journal_device self.old) (journal_device self.new) }
        ensures gate_failed { IsErrOf result Fault.Unknown → IfSome (journal_device self.new).last_fault IsWriteOrSync }
        ensures body_written { IsErrOf result Fault.Unknown → (journal_device self.new).keeps_model →
            HasBody (slot_at (journal_layout self.old).vars (journal_position self.old).used) (batch_bytes Two (journal_position self.old).generation (journal_state self.old).count batch.now) (journal_device self.new).seen }

        // A crash at any moment of the call leaves what the journal before it allows, or the one after it.
        ensures any_moment { AtEachMoment (journal_device self.old) (journal_device self.new) (λ c. ∥ MayBe self.old c ⊎ MayBe self.new c ∥₁) }
    {
        if self.is_closed {
            return Err(Fault::Closed);
        }
        if self.log.used == self.layout.slots {
            return Err(Fault::LogFull);
        }
        let effects = batch.effects();
        let first = self.state.count();
        match append(
            &mut self.disk,
            self.layout,
            &mut self.log,
            first,
            batch,
            &mut self.buffer.bytes,
        ) {
            Ok(()) => {
                let pages = pages_changed(effects);
                self.changed.chosen |= pages;
                self.changed.spare |= pages;
                commit_all(&mut self.state, effects);
                Ok(self.state.count())
            }
            Err(fault) => {
                self.is_closed = true;
                self.doubt = in_doubt(&fault, batch);
                Err(fault)
            }
        }
    }

    /// Writes the state as an image of the next generation, of version 2, to the image copy that is not chosen, and empties
    /// the log then: each log slot is free again. Of the pages of that copy it writes those that may differ from the state.
    /// The state stays as it is. Refused by `Closed` once a call of the device has failed; by `Spent` where no generation is
    /// left; by `Device` where a read failed, or a write of anything but the gate that opens the image; and by `Unknown` where
    /// a sync or the write of that gate failed. After these two the journal is closed, and a crash leaves the old image with
    /// its log, or the new one: after `Device` always the same one. It takes no memory.
    pub fn checkpoint(&mut self) -> Result<(), Fault>
        ensures uses { Uses (journal_device self.old) (journal_device self.new) result }
        ensures layout { journal_layout self.new ≡ journal_layout self.old }
        ensures checkpointed { Checkpoints self.old result self.new }

        // Where the write of the gate failed, the whole image stands behind it, and nothing but its copy was written.
        ensures gate_write_failed { IsErrOf result Fault.Unknown → (journal_device self.new).last_fault ≡ Some DeviceFault.Write →
            AwaitsGate (image_placed (journal_layout self.old) (next_image (journal_position self.old)).copy (next_image (journal_position self.old)).generation (journal_state self.old))
            (journal_device self.old) (journal_device self.new) }

        // At `Device` it is certain which image is chosen: the old one with its log, or the new one.
        ensures certain { IsErrOf result Fault.Device →
            LeavesOnly (journal_device self.new) (ContentRepresents (journal_layout self.old).vars (journal_layout self.old).slots (journal_position self.old) (journal_state self.old))
            ⊎ LeavesOnly (journal_device self.new) (ContentRepresents (journal_layout self.old).vars (journal_layout self.old).slots (next_image (journal_position self.old)) (journal_state self.old)) }

        // A crash at any moment of the call leaves a content that represents the state.
        ensures any_moment { is_closed_of self.old ≡ false → AtEachMoment (journal_device self.old) (journal_device self.new)
            (ContentRepresentsState (journal_layout self.old).vars (journal_layout self.old).slots (journal_state self.old)) }

        // Block 0 is not written, nor anything behind the slots.
        ensures elsewhere { WritesWithin (image_at (journal_layout self.old).vars 0)
            (2 * image_size (journal_layout self.old).vars + 4096 * (journal_layout self.old).slots)
            (journal_device self.old) (journal_device self.new) }
    {
        if self.is_closed() {
            return Err(Fault::Closed);
        }
        if self.log.generation == u64::MAX {
            return Err(Fault::Spent);
        }
        match renew(
            &mut self.disk,
            self.layout,
            Version::Two,
            self.copy,
            &mut self.log,
            &self.state,
            self.changed.spare,
        ) {
            Ok(()) => {
                self.copy = 1 - self.copy;
                self.changed = Changed {
                    chosen: 0,
                    spare: self.changed.chosen,
                };
                Ok(())
            }
            Err(refused) => {
                self.is_closed = true;
                Err(refused)
            }
        }
    }
}

// The batch, where a flush that failed so may have made it durable.
fn in_doubt(fault: &Fault, batch: &Batch) -> Option<Snapshot<Batch>>
    ensures { effects_in result ≡ doubted fault.now batch.now }
{
    match fault {
        Fault::Unknown => Some(Snapshot::of(batch)),
        _ => None,
    }
}
