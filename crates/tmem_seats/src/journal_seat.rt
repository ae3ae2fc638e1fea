// What lies under the journal's lock.
ghost use Rattle.std.specs.Prelude.{◌≡◌, ◌≢◌, ◌⊎◌, ◌≤◌, ◌<◌, ◌+◌, ◌*◌, ◌↔◌, ℕ, true, false, [], length, IsTrue, Err, IfOk, IfErr};
ghost use Rattle.tmem_disk.specs.Disk.{LeavesOnly, AtEachMoment};
ghost use Rattle.tmem_effect.specs.Prefix.{IsPrefix};
ghost use Rattle.tmem_effect.specs.declared.effect.Effect.{Effect as EffectOf};
ghost use Rattle.tmem_gate.specs.Calls.{Uses, WritesWithin};
ghost use Rattle.tmem_record.specs.Layout.{slot_at, image_at, image_size};
ghost use Rattle.tmem_journal.specs.Held.{journal_device, journal_layout, journal_state, doubtful_of, journal_position, is_closed_of};
ghost use Rattle.tmem_journal.specs.Contents.{ContentRepresentsEither, ContentRepresentsState};
ghost use Rattle.tmem_spine.specs.History.{count, marked_effect, longer, Has, HasAt};
ghost use Rattle.tmem_spine.specs.Views.{new_journal};
ghost use Rattle.tmem_journal.specs.Journals.{Flushes, Checkpoints, HasSlot};
ghost use Rattle.tmem_seats.specs.Flushing.{BatchGoesOn, TakesOldest, IsFlushRefusal, IsCheckpointRefusal, IsFlusherRefusal};
ghost use Rattle.tmem_seats.specs.Histories.{state_after_history};
ghost use Rattle.tmem_seats.specs.Seats.{KnowsOrEnded, first_failure};

use crate::core_seat::CoreSeat;
use crate::failure::Failure;
use crate::naming::StoreNaming;
use tmem_disk::Disk;
use tmem_fault::Fault;
use tmem_invariants::Invariants;
use tmem_journal::Journal;
use tmem_spine::{JournalSide, PassSide, Spine};
use tmem_state::Batch;

/// What was done to the log of a store since it was opened, and what is free there.
#[derive(Clone, Copy, Debug)]
pub struct LogCounts {
    /// Flushes: batches that were written.
    pub flushes: u64,
    /// Checkpoints that were made.
    pub checkpoints: u64,
    /// Slots that are free.
    pub free_slots: u16,
}

/// The journal, beside its seat. Contracts speak of its parts by the words of `specs/Held`.
pub struct JournalSeat<D: Disk, N: StoreNaming> {
    journal: Journal<D>,
    side: JournalSide<N>,
    // the batch of a flush, with room from the start
    batch: Batch,
    // how many flushes and how many checkpoints were made
    flushes: u64,
    checkpoints: u64,

    /// The journal's state is what the durable effects make of the opening state.
    pub ghost state: { journal_state journal ≡ state_after_history N.opening side.durable },

    /// The history starts at the count of the opening state.
    pub ghost starts: { N.opening.count ≡ N.name.start },

    /// What an unknown outcome left in doubt is nothing, or what the journal aims at.
    pub ghost doubt: { ∥ (doubtful_of journal ≡ state_after_history N.opening side.durable) ⊎ (doubtful_of journal ≡ state_after_history N.opening side.aimed) ∥₁ },

    /// What is durable begins what it aims at.
    pub ghost begins: { IsPrefix side.durable side.aimed },

    /// It is over the variables of the opening state.
    pub ghost over: { (journal_layout journal).vars ≡ length N.opening.values },
}

// By hand, so that a function that drops one makes one call.
impl<D: Disk + Drop, N: StoreNaming> Drop for JournalSeat<D, N> {
    fn drop(self) {
        let JournalSeat {
            journal: _journal,
            side: _side,
            batch: _batch,
            flushes: _flushes,
            checkpoints: _checkpoints,
        } = self;
    }
}

impl<D: Disk, N: StoreNaming> JournalSeat<D, N> {
    ghost use Rattle.tmem_seats.specs.Held.{journal_of, side_of, batch_of};

    /// A journal on whose seat nothing happened yet.
    pub fn new(journal: Journal<D>, side: JournalSide<N>, batch: Batch) -> JournalSeat<D, N>
        requires opening { (journal_state journal ≡ N.opening) × (N.opening.count ≡ N.name.start) }
        requires sure { doubtful_of journal ≡ N.opening }
        requires over { (journal_layout journal).vars ≡ length N.opening.values }
        requires fresh { side ≡ new_journal }
        ensures { (side_of result ≡ new_journal) × (journal_of result ≡ journal) }
    {
        JournalSeat {
            journal,
            side,
            batch,
            flushes: 0,
            checkpoints: 0,
        }
    }

    /// The device. Every crash leaves the state after what is durable, or after what the journal aims at.
    pub fn into_disk(self) -> D
        ensures { LeavesOnly (D.view result)
            (ContentRepresentsEither (length N.opening.values) (journal_layout (journal_of self)).slots (state_after_history N.opening (side_of self).durable) (state_after_history N.opening (side_of self).aimed)) }
    {
        let JournalSeat {
            journal,
            side: _side,
            batch: _batch,
            flushes: _flushes,
            checkpoints: _checkpoints,
        } = self;
        journal.into_disk()
    }

    /// Every crash leaves the state after what is durable, or after what the journal aims at.
    pub fn crash_leaves(&self)
        ensures { LeavesOnly (journal_device (journal_of self.now))
            (ContentRepresentsEither (journal_layout (journal_of self.now)).vars (journal_layout (journal_of self.now)).slots (state_after_history N.opening (side_of self.now).durable) (state_after_history N.opening (side_of self.now).aimed)) }
    {}

    /// How many are durable. The pass then knows at least these, and its own effect at the number is among them, if it
    /// saw so many.
    pub fn vouch(&mut self, spine: &Spine<N>, pass: &mut PassSide<N>, number: u64) -> u64
        requires { number < count N.name.start pass.old.seen }
        ensures same { (side_of self.new ≡ side_of self.old) × (journal_of self.new ≡ journal_of self.old) }
        ensures answer { result ≡ count N.name.start (side_of self.old).durable }
        ensures least { count N.name.start pass.old.seen ≤ result }
        ensures most { result ≤ count N.name.start pass.new.known }
        ensures pass { pass.new ≡ record pass.old { known = longer pass.old.known (side_of self.old).durable } }
        ensures begins { IsPrefix pass.old.seen (side_of self.old).durable × IsPrefix pass.old.known pass.new.known }
        ensures stands { (effect : EffectOf) → Has pass.old.own number effect → HasAt N.name.start (side_of self.old).durable number (marked_effect pass.old.mark effect) }
    {
        spine.meet_journal(&mut self.side, pass);
        self.count()
    }

    /// Under both locks: takes the oldest effects that wait from the core, and aims at them. Answers whether there are
    /// any.
    pub fn aim<T: Invariants + Drop>(&mut self, spine: &Spine<N>, core: &mut CoreSeat<N, T>) -> bool
        requires { is_closed_of (journal_of self.old) ≡ false }
        ensures core { core.new ≡ record core.old { trimmed = count N.name.start (side_of self.old).durable } }
        ensures same { (journal_of self.new ≡ journal_of self.old) × ((side_of self.new).durable ≡ (side_of self.old).durable) }
        ensures goes_on { BatchGoesOn N.name.start N.opening (side_of self.old).durable (batch_of self.new) (side_of self.new).aimed }
        ensures oldest { TakesOldest core.old.committed (side_of self.old).durable (batch_of self.new) (side_of self.new).aimed }
        ensures some { IsTrue result ↔ (1 ≤ length (batch_of self.new)) }
    {
        core.take(spine, &mut self.side, &mut self.batch);
        self.batch.len() > 0
    }

    /// Under the journal's lock alone: makes durable what the journal aims at, and answers how many are durable then.
    /// Refused as a journal refuses a batch. Nothing is durable then that was not, but after `Unknown` a crash may
    /// leave it.
    pub fn write(&mut self, spine: &Spine<N>) -> Result<u64, Fault>
        requires some { 1 ≤ length (batch_of self.old) }
        requires goes_on { BatchGoesOn N.name.start N.opening (side_of self.old).durable (batch_of self.old) (side_of self.old).aimed }
        ensures aimed { (side_of self.new).aimed ≡ (side_of self.old).aimed }
        ensures ok { IfOk result (λ n. ((side_of self.new).durable ≡ (side_of self.old).aimed) × (n ≡ count N.name.start (side_of self.new).durable)) }
        ensures err { IfErr result (λ _. (side_of self.new).durable ≡ (side_of self.old).durable) }
        ensures refused { IfErr result IsFlushRefusal }
        ensures flushed { Flushes (journal_of self.old) (batch_of self.old) result (journal_of self.new) }
        ensures batch { batch_of self.new ≡ batch_of self.old }
        ensures layout { journal_layout (journal_of self.new) ≡ journal_layout (journal_of self.old) }
        ensures uses { Uses (journal_device (journal_of self.old)) (journal_device (journal_of self.new)) result }
        ensures elsewhere { WritesWithin (slot_at (journal_layout (journal_of self.old)).vars (journal_position (journal_of self.old)).used) 4096
            (journal_device (journal_of self.old)) (journal_device (journal_of self.new)) }

        // A crash at any moment leaves the state after what was durable, or after what the journal aims at.
        ensures any_moment { AtEachMoment (journal_device (journal_of self.old)) (journal_device (journal_of self.new))
            (ContentRepresentsEither (journal_layout (journal_of self.old)).vars (journal_layout (journal_of self.old)).slots (state_after_history N.opening (side_of self.old).durable) (state_after_history N.opening (side_of self.old).aimed)) }
    {
        let flushed = self.journal.flush(&self.batch);
        if flushed.is_ok() {
            spine.harden(&mut self.side, self.batch.len() as u64);
            self.flushes = self.flushes.wrapping_add(1);
        }
        flushed
    }

    /// Whether a failure of the device closed the journal.
    pub fn is_closed(&self) -> bool
        ensures { result ≡ is_closed_of (journal_of self.now) }
    {
        self.journal.is_closed()
    }

    /// How many are durable.
    pub fn count(&self) -> u64
        ensures { result ≡ count N.name.start (side_of self.now).durable }
    {
        self.journal.count()
    }

    /// How many flushes and checkpoints were made, and how many slots of the log are free.
    pub fn log(&self) -> LogCounts
        ensures { result.free_slots + (journal_position (journal_of self.now)).used ≡ (journal_layout (journal_of self.now)).slots }
    {
        LogCounts {
            flushes: self.flushes,
            checkpoints: self.checkpoints,
            free_slots: self.journal.free_slots(),
        }
    }

    /// Under both locks, after a call of the device, which met this failure or none: the core learns how many are durable, or is
    /// shut where the journal is closed. Answers whether it is shut then.
    pub fn tell<T: Invariants + Drop>(
        &mut self,
        spine: &Spine<N>,
        core: &mut CoreSeat<N, T>,
        failure: Failure,
    ) -> bool
        ensures told { result ≡ core.new.is_shut }
        ensures journal { (journal_of self.new ≡ journal_of self.old) × (side_of self.new ≡ side_of self.old) × (batch_of self.new ≡ batch_of self.old) }
        ensures knows { KnowsOrEnded N.name.start (side_of self.new).durable core.new }
        ensures shut { is_closed_of (journal_of self.old) ≡ true → core.new ≡ record core.old { is_shut = true; is_draining = false; failure = first_failure core.old.failure failure } }
        ensures durable { is_closed_of (journal_of self.old) ≡ false → core.new ≡ record core.old { trimmed = count N.name.start (side_of self.old).durable } }
    {
        if self.is_closed() {
            core.fail(failure);
        } else {
            core.learn(spine, &mut self.side);
        }
        core.is_shut()
    }

    /// Makes an image of the durable state, and frees every slot of the log. The history stays. Refused as a journal
    /// refuses a checkpoint.
    pub fn checkpoint(&mut self) -> Result<(), Fault>
        ensures side { (side_of self.new ≡ side_of self.old) × (batch_of self.new ≡ batch_of self.old) }
        ensures refused { IfErr result IsCheckpointRefusal }
        ensures checkpointed { Checkpoints (journal_of self.old) result (journal_of self.new) }
        ensures layout { journal_layout (journal_of self.new) ≡ journal_layout (journal_of self.old) }
        ensures uses { Uses (journal_device (journal_of self.old)) (journal_device (journal_of self.new)) result }
        ensures elsewhere { WritesWithin (image_at (journal_layout (journal_of self.old)).vars 0)
            (2 * image_size (journal_layout (journal_of self.old)).vars + 4096 * (journal_layout (journal_of self.old)).slots)
            (journal_device (journal_of self.old)) (journal_device (journal_of self.new)) }

        // A crash at any moment leaves the state after what is durable.
        ensures any_moment { is_closed_of (journal_of self.old) ≡ false → AtEachMoment (journal_device (journal_of self.old)) (journal_device (journal_of self.new))
            (ContentRepresentsState (journal_layout (journal_of self.old)).vars (journal_layout (journal_of self.old)).slots (state_after_history N.opening (side_of self.old).durable)) }
    {
        let written = self.journal.checkpoint();
        count_done(&mut self.checkpoints, written.is_ok());
        written
    }

    /// Makes durable what the journal aims at, as `write` does. Where the log is full, makes a checkpoint and then writes: so it is
    /// refused as a journal refuses a batch or a checkpoint, but never by `LogFull`.
    pub fn write_with_room(&mut self, spine: &Spine<N>) -> Result<u64, Fault>
        requires some { 1 ≤ length (batch_of self.old) }
        requires goes_on { BatchGoesOn N.name.start N.opening (side_of self.old).durable (batch_of self.old) (side_of self.old).aimed }
        ensures aimed { (side_of self.new).aimed ≡ (side_of self.old).aimed }
        ensures ok { IfOk result (λ n. ((side_of self.new).durable ≡ (side_of self.old).aimed) × (n ≡ count N.name.start (side_of self.new).durable)) }
        ensures err { IfErr result (λ _. (side_of self.new).durable ≡ (side_of self.old).durable) }
        ensures refused { IfErr result IsFlusherRefusal }
        ensures closed { result ≡ Err Fault.Closed → is_closed_of (journal_of self.old) ≡ true }

        // Where a slot is left it does as `write`. Only at `Unknown`, or where the journal was closed before, more than the durable
        // state is in doubt.
        ensures roomy { HasSlot (journal_of self.old) → Flushes (journal_of self.old) (batch_of self.old) result (journal_of self.new) }
        ensures certain { IfErr result (λ fault. fault ≢ Fault.Unknown → fault ≢ Fault.Closed → doubtful_of (journal_of self.new) ≡ state_after_history N.opening (side_of self.old).durable) }

        // A crash at any moment leaves the state after what was durable, or after what the journal aims at.
        ensures any_moment { AtEachMoment (journal_device (journal_of self.old)) (journal_device (journal_of self.new))
            (ContentRepresentsEither (journal_layout (journal_of self.old)).vars (journal_layout (journal_of self.old)).slots (state_after_history N.opening (side_of self.old).durable) (state_after_history N.opening (side_of self.old).aimed)) }
    {
        match self.write(spine) {
            Err(Fault::LogFull) => {
                self.checkpoint()?;
                self.write(spine)
            }
            written => written,
        }
    }
}

// Counts one more that was done.
fn count_done(count: &mut u64, is_done: bool) {
    if is_done {
        *count = count.wrapping_add(1);
    }
}
