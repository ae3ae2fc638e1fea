// The core, and the journal that makes durable what it commits.
ghost use Rattle.std.specs.Prelude.{◌≡◌, ◌*◌, ◌+◌, ℕ, Some, length, IfSome, IsErrOf};
ghost use Rattle.std.proofs.Props.{props};
ghost use Rattle.tmem_disk.specs.Disk.{IsWriteOrSync};
ghost use Rattle.tmem_effect.specs.State.{State, StaysWithin, fold};
ghost use Rattle.tmem_core.specs.Held.{core_state, waiting_of, durable_of, is_shut_of, core_table};
ghost use Rattle.tmem_journal.specs.Held.{journal_device, journal_layout, is_closed_of, journal_state};
ghost use Rattle.tmem_world.specs.Facts.{StaysWithin-prop};
ghost use Rattle.tmem_record.specs.Layout.{image_at, image_size, slot_at};

use crate::attempt::WorldAttempt;
use tmem_core::Core;
use tmem_disk::{DeviceFault, Disk};
use tmem_event::Reply;
use tmem_fault::Fault;
use tmem_invariants::Invariants;
use tmem_journal::Journal;
use tmem_opening::Opening;
use tmem_state::Batch;
use tmem_tree::Signature;

/// What a world keeps from an opening to the next one, or to a crash. The core is shut once the journal is closed.
#[derive(Drop)]
pub(crate) struct CoreAndJournal<D: Disk, T: Invariants> {
    pub(crate) core: Core<T>,
    pub(crate) journal: Journal<D>,
    pub(crate) batch: Batch,
    ghost known: { durable_of core ≡ (journal_state journal).count },
    ghost shut: { is_shut_of core ≡ is_closed_of journal },
    ghost over: { length (core_state core).values ≡ (journal_layout journal).vars },
    ghost waits: { fold (journal_state journal) (waiting_of core) ≡ core_state core },

    // Each state from the durable one on, as one effect after another is made durable, is within the limits.
    ghost within: { StaysWithin (journal_state journal) (waiting_of core) } by { Prim.hlevel (props, StaysWithin-prop) },
}

impl<D: Disk, T: Invariants + Drop> CoreAndJournal<D, T> {
    /// Those of an opening. The signatures of its table's invariants are handed on.
    pub(crate) fn of(opening: Opening<D, T>) -> (CoreAndJournal<D, T>, Vec<Signature>)
        ensures core { result.0.core ≡ opening.core }
        ensures journal { result.0.journal ≡ opening.journal }
        ensures signatures { result.1 ≡ opening.signatures }
    {
        let Opening {
            core,
            journal,
            batch,
            signatures,
        } = opening;
        let both = CoreAndJournal {
            core,
            journal,
            batch,
        };
        (both, signatures)
    }

    ghost use Rattle.tmem_world.specs.CoresAndJournals.{FlushesBoth, CheckpointsBoth, CallsDevice};
    ghost use Rattle.tmem_world.specs.Replies.{failures_by};
    ghost use Rattle.tmem_tentative.specs.Cursors.{attempt_of};
    ghost use Rattle.tmem_world.specs.Attempts.{HoldsEnded, IsForStore};
    ghost use Rattle.tmem_world.specs.SettleAttempt.{SettlesAttempt};

    /// Settles what an attempt holds, which is emptied unless the answer is a refusal.
    pub(crate) fn settle_attempt(&mut self, held: &mut WorldAttempt) -> Reply
        requires { HoldsEnded held.old → IsForStore (length (core_state self.old.core).values) (T.names (core_table self.old.core)) (attempt_of held.old.cursor) }
        ensures settled { SettlesAttempt self.old held.old result self.new held.new }
        ensures failures { (n : ℕ) → failures_by result n ≡ n }
        ensures journal { self.new.journal ≡ self.old.journal }
        ensures table { core_table self.new.core ≡ core_table self.old.core }
    {
        if !held.is_ended() {
            return Reply::Idle;
        }
        match self.core.settle(held.cursor.attempt()) {
            Ok(settled) => {
                held.plan = None;
                Reply::Settled(settled)
            }
            Err(fault) => Reply::Fault(fault),
        }
    }

    /// Makes the oldest transactions that wait durable, as long as any record would still fit into the batch, and answers
    /// how many are durable then.
    pub(crate) fn flush(&mut self) -> Result<u64, Fault>
        ensures flushed { FlushesBoth self.old result self.new }
        ensures device { CallsDevice (slot_at (journal_layout self.old.journal).vars 0) (4096 * (journal_layout self.old.journal).slots) self.old result self.new }

        // At `Device` the last call that failed was a write, at `Unknown` a write or a sync.
        ensures write_failed { IsErrOf result Fault.Device → (journal_device self.new.journal).last_fault ≡ Some DeviceFault.Write }
        ensures gate_failed { IsErrOf result Fault.Unknown → IfSome (journal_device self.new.journal).last_fault IsWriteOrSync }
    {
        if self.core.is_shut() {
            return Err(Fault::Closed);
        }
        let durable = self.core.durable();
        if durable == self.core.count() {
            return Ok(durable);
        }
        self.core.take(durable, &mut self.batch);
        let flushed = self.journal.flush(&self.batch);
        match &flushed {
            Ok(number) => self.core.learn_durable(*number),
            Err(_) => {
                if self.journal.is_closed() {
                    self.core.shut();
                }
            }
        }
        flushed
    }

    /// Writes the durable state as the next image, and frees every log slot.
    pub(crate) fn checkpoint(&mut self) -> Result<(), Fault>
        ensures checkpointed { CheckpointsBoth self.old result self.new }
        ensures device { CallsDevice (image_at (journal_layout self.old.journal).vars 0)
            (2 * image_size (journal_layout self.old.journal).vars + 4096 * (journal_layout self.old.journal).slots) self.old result self.new }
    {
        let renewed = self.journal.checkpoint();
        if self.journal.is_closed() {
            self.core.shut();
        }
        renewed
    }
}
