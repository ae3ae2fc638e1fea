// One thread plays a list of events over a core and a journal.
ghost use Rattle.std.specs.Prelude.{◌≡◌, ◌<◌, ◌⊎◌, ◌↔◌, ℕ, true, false, Some, None, [], length, All, IsTrue, IsSome, IfOk, IfErr, OnOk, replicate, slice_index_or, pos};
ghost use Rattle.std.proofs.Props.{props};
ghost use Rattle.tmem_effect.specs.State.{State};
ghost use Rattle.tmem_effect.specs.Names.{has_name};
ghost use Rattle.tmem_invariants.specs.Meanings.{Meanings};
ghost use Rattle.tmem_tree.specs.Signatures.{AreMeant as HaveFootprints, AreWithin, names_of};
ghost use Rattle.tmem_core.specs.Program.{Program, IsProgramOf};
ghost use Rattle.tmem_gate.specs.Calls.{Uses};
ghost use Rattle.tmem_journal.specs.Contents.{Position};
ghost use Rattle.tmem_journal.specs.Calls.{FitsOn, fault_alone};
ghost use Rattle.tmem_opening.specs.Opening.{FindsState, Mending, OpeningRefused, RecoversEither, without_device};
ghost use Rattle.tmem_world.specs.Parts.{what, layout_in, table_in};
ghost use Rattle.tmem_world.specs.Attempts.{FitsAttempt};
ghost use Rattle.tmem_world.specs.Facts.{FitsAttempt-prop};
ghost use Rattle.tmem_event.specs.Events.{NamesAttempt};
ghost use Rattle.tmem_world.specs.WorldModel.{WorldModel, opening, present, is_there, Run};

use crate::attempt::WorldAttempt;
use crate::core_and_journal::CoreAndJournal;
use crate::held::{DeviceAndTable, Held};
use std::alloc::{AllocError, Global};
use tmem_disk::Disk;
use tmem_event::{ATTEMPTS, Event, Reply};
use tmem_fault::{Fault, Name};
use tmem_invariants::Invariants;
use tmem_journal::{Layout, refused_represents_none, represents_one, spent_is_at_last};
use tmem_opening::Opening;
use tmem_tree::{Plan, Signature, StoredSteps, Tx};

/// Durable transactional memory for one thread: it plays events over the present state and a device.
pub struct World<D: Disk, T: Invariants, S: StoredSteps> {
    alloc: Global,
    layout: Layout,
    steps: S,
    // what a plan has to know of the table's invariants, in its order
    signatures: Vec<Signature>,
    // a core with its journal, or what is left without one: it is away only while the device is opened again
    held: Option<Held<D, T>>,
    attempts: Vec<WorldAttempt>,
    ghost sized: { length attempts.items ≡ 16 },
    ghost here: { IsSome held },
    ghost same_vars: { (layout_in (what held here)).vars ≡ layout.vars },
    ghost same_slots: { (layout_in (what held here)).slots ≡ layout.slots },
    ghost named: { names_of signatures.items ≡ T.names (table_in (what held here)) },
    ghost meant: { (tests : Meanings) → T.is_stated (table_in (what held here)) tests → HaveFootprints tests signatures.items },
    ghost within: { AreWithin layout.vars signatures.items },
    ghost fit: { All (FitsAttempt layout.vars (S.arities steps) (S.is_stated steps) (names_of signatures.items) (λ tests. HaveFootprints tests signatures.items)) attempts.items } by { Prim.hlevel (props, FitsAttempt-prop) },
}

// By hand, so that a function that drops one makes one call.
impl<D: Disk + Drop, T: Invariants + Drop, S: StoredSteps + Drop> Drop for World<D, T, S> {
    fn drop(self) {
        let World {
            alloc: _alloc,
            layout: _layout,
            steps: _steps,
            signatures: _signatures,
            held: _held,
            attempts: _attempts,
        } = self;
    }
}

impl<D: Disk + Drop, T: Invariants + Drop, S: StoredSteps + Drop> World<D, T, S> {
    ghost use Rattle.tmem_world.specs.Represents.{Represents, AreMeantBy, Means, IsStep, Plays, EachMoment, WritesInStore, HasCore, BeginsAt, KeepsSetting, numbers_of, world_disk, world_view, world_device_after, world_steps, held_table, durable_number};
    ghost use Rattle.tmem_world.specs.AnyDevice.{Reopens, PlaysOnAnyDevice};
    ghost use Rattle.tmem_world.specs.Replies.{failures_by, failures_by_all, CallsNoDevice, IsFailedCall};
    ghost use Rattle.tmem_world.specs.Chain.{ChainHistory, IsStore, OpensStore, StepsOn, PlaysOn};
    ghost use Rattle.tmem_world.specs.EachPlayed.{IsAnswered, PlaysEach};

    /// Opens a device of these numbers: finds what its content represents, and begins a session there, with these
    /// invariants and stored steps. Refused by `Geometry` where the numbers are out of limits, the device is smaller than
    /// their layout, or it was formatted for others; by `NotFormatted` where it lacks the open block 0 with its letters;
    /// else by `Damaged` where its content represents no state; by `Missing` with the first registered name, by bytes,
    /// that the table lacks; by `Broken` with the first registered invariant, in the table's order, that is false; by `Spent`
    /// where its image is of format version 1 and of the last generation, so that none of version 2 can follow; by `Memory`,
    /// before the device is touched or where the state that was found is sound; by `Device` where a call of the device failed.
    /// The device is handed back with the refusal. Gates that read open behind the log are closed, and where the image is of
    /// version 1, the state is written as the next image, of version 2, before the invariants are looked at. Nothing else is
    /// written: nothing at all before a refusal by `Geometry`, `NotFormatted` or `Damaged`.
    pub fn open(
        alloc: Global,
        disk: D,
        vars: u16,
        slots: u16,
        table: T,
        steps: S,
    ) -> Result<World<D, T, S>, (Fault, D)>
        requires { T.vars table ≡ vars }
        ensures found { IfOk result (λ w. (s : State) × (position : Position) × ((program : Program) → Means w program → Represents program w (opening s position (D.view disk).failures))
            × ((world_view w).keeps_model → FindsState vars slots (D.view disk) (world_view w) position s)) }
        ensures steps { IfOk result (λ w. world_steps w ≡ steps) }
        ensures table { IfOk result (λ w. held_table w ≡ table) }
        ensures fits { IfOk result (λ w. ((numbers_of w).vars ≡ vars) × ((numbers_of w).slots ≡ slots) × HasCore w × FitsOn vars slots (D.view disk).capacity) }
        ensures uses { Uses (D.view disk) (world_device_after result) (fault_alone result) }
        ensures refused { IfErr result (λ e. OpeningRefused (IsProgramOf T.Invariants table) vars slots (D.view disk) e.0 (D.view e.1)) }

        // Where every crash left one of two states, and both are sound, one of them is found, unless memory or the device
        // fails, or no image of version 2 can follow.
        ensures recovers { RecoversEither (BeginsAt (D.view disk).failures) (AreMeantBy S.StoredSteps T.Invariants steps table) vars slots (D.view disk) (world_device_after result) (without_device result) }

        // Gates behind the log may be closed, and an image of version 2 be written where that which is found is of version 1.
        // Nothing else is written, whatever the answer.
        ensures mends { Mending vars slots (D.view disk) (world_device_after result) }

        // A store is opened with its history: what is found is the state after a prefix of it that has every acknowledged
        // transaction, and that state is sound, unless memory or the device fails, or no image of version 2 can follow. The
        // world begins the next session of the
        // history's chain there. A crash at any moment leaves what is safe for the same history.
        ensures chain { (program : Program) (h : ChainHistory) → AreMeantBy S.StoredSteps T.Invariants steps table program
            → IsStore program vars slots h (D.view disk) → (world_device_after result).keeps_model → OpensStore program vars slots h (D.view disk) result }

        // Where the numbers do not fit the device, no call of it is made: the one that was handed in is handed back.
        ensures untouched { ¬ FitsOn vars slots (D.view disk).capacity → IfErr result (λ e. e.1 ≡ disk) }
    {
        // what is found on a store is a state of its history, and that is not refused
        represents_one();
        refused_represents_none();
        let opening = match Opening::open(alloc, disk, vars, slots, table) {
            Ok(opening) => opening,
            Err((fault, disk, _)) => return Err((fault, disk)),
        };
        let attempts = match empty_attempts(alloc) {
            Ok(attempts) => attempts,
            Err(_) => return Err((Fault::Memory, opening.into_disk())),
        };
        let (both, signatures) = CoreAndJournal::of(opening);
        Ok(World {
            alloc,
            layout: both.journal.layout(),
            steps,
            signatures,
            held: Some(Held::With(both)),
            attempts,
        })
    }

    /// Plays one event. The number of the event's attempt, where it names one, is below 16.
    pub fn step(&mut self, event: Event) -> Reply
        requires { NamesAttempt event }
        ensures step { IsStep self.old event result self.new }
        ensures reopened { Reopens self.old event result self.new }

        // A crash at any moment of the event leaves the serial order, cut as before the event or as after it. Block 0 is not
        // written, nor anything behind the log.
        ensures any_moment { EachMoment self.old self.new }
        ensures elsewhere { WritesInStore (numbers_of self.old) (world_view self.old) (world_view self.new) }

        // The history of a chain of sessions goes on by the event, and a crash at any moment of it leaves what is safe for the
        // history before it, or for the one after it.
        ensures chain { StepsOn self.old event result self.new }

        ensures failures { (world_view self.new).failures ≡ failures_by result (world_view self.old).failures }
        ensures failed_call { IsFailedCall event result (world_view self.new).last_fault }
        ensures still { CallsNoDevice (durable_number self.old) event result → world_disk self.new ≡ world_disk self.old }
        ensures kept { KeepsSetting self.old self.new }
    {
        match event {
            Event::Begin { slot, tx } => self.begin(slot, tx),
            Event::Turn { slot } => self.turn(slot),
            Event::Settle { slot } => self.settle(slot),
            Event::Flush => self.flush(),
            Event::Checkpoint => self.checkpoint(),
            Event::Look => self.look(),
            Event::Reopen => self.reopen(),
        }
    }

    /// Plays events, one after another. Refused by `Memory`, before any event, where the replies find no room.
    pub fn play(&mut self, events: Vec<Event>) -> Result<Vec<Reply>, Fault>
        requires { All NamesAttempt events.items }

        // Each event was played as `step` says, one after another.
        ensures each { IfOk result (λ replies. PlaysEach self.old events.items replies.items self.new) }
        ensures run { IfOk result (λ replies. Plays self.old events.items replies.items self.new) }
        ensures any_device { IfOk result (λ replies. PlaysOnAnyDevice self.old events.items replies.items self.new) }
        ensures chain { IfOk result (λ replies. PlaysOn self.old events.items replies.items self.new) }
        ensures elsewhere { WritesInStore (numbers_of self.old) (world_view self.old) (world_view self.new) }
        ensures failures { IfOk result (λ replies. (world_view self.new).failures ≡ failures_by_all replies.items (world_view self.old).failures) }
        ensures kept { KeepsSetting self.old self.new }
        ensures err { IfErr result (λ f. (f ≡ Fault.Memory) × (self.new ≡ self.old)) }
    {
        let mut replies = Vec::with_capacity(self.alloc, events.len())?;
        for event in events {
            let reply = self.step(event);
            let _ = replies.push(reply);
        }
        Ok(replies)
    }

    /// Whether it has a core, also one that is closed.
    pub fn has_core(&self) -> bool
        ensures held { IsTrue result ↔ HasCore self.now }
        ensures status { (program : Program) (m : WorldModel) → Represents program self.now m → result ≡ is_there m.status }
    {
        matches!(&self.held, Some(Held::With(_)))
    }

    /// How many transactions were committed. It has a core.
    pub fn count(&self) -> u64
        requires { HasCore self.now }
        ensures { (program : Program) (m : WorldModel) → Represents program self.now m → result ≡ (present program m).count }
    {
        match &self.held {
            Some(Held::With(both)) => both.core.count(),
            _ => unreachable!(),
        }
    }

    /// The value of a variable after every committed transaction. It has a core, and the variable is one of its own.
    pub fn value(&self, var: u16) -> i64
        requires open { HasCore self.now }
        requires var { var < (numbers_of self.now).vars }
        ensures { (program : Program) (m : WorldModel) → Represents program self.now m → result ≡ slice_index_or (present program m).values var (pos 0) }
    {
        match &self.held {
            Some(Held::With(both)) => both.core.peek(var),
            _ => unreachable!(),
        }
    }

    /// Whether an invariant of this name is registered. It has a core.
    pub fn has(&self, name: &Name) -> bool
        requires { HasCore self.now }
        ensures { (program : Program) (m : WorldModel) → Represents program self.now m → result ≡ has_name (present program m).names name.now }
    {
        match &self.held {
            Some(Held::With(both)) => both.core.has(name),
            _ => unreachable!(),
        }
    }

    /// The device.
    pub fn into_disk(self) -> D
        ensures { result ≡ world_disk self }
    {
        let World {
            alloc: _alloc,
            layout: _layout,
            steps: _steps,
            signatures: _signatures,
            held,
            attempts: _attempts,
        } = self;
        held.unwrap().into_parts().0
    }

    // Makes a plan of a transaction.
    fn begin(&mut self, attempt: u8, tx: Tx) -> Reply
        requires { attempt < 16 }
        ensures { IsAnswered self.old (Event.Begin attempt tx) result self.new }
    {
        if !self.has_core() {
            return Reply::Fault(Fault::Closed);
        }
        let plan = match Plan::new(tx, &self.steps, self.layout.vars, &self.signatures) {
            Ok(plan) => plan,
            Err(fault) => return Reply::Fault(fault),
        };
        match self.attempts[attempt as usize].begin(plan) {
            Ok(()) => Reply::Begun,
            Err(fault) => Reply::Fault(fault),
        }
    }

    // Goes on with a plan as far as the values and the answers allow that it has.
    fn turn(&mut self, attempt: u8) -> Reply
        requires { attempt < 16 }
        ensures { IsAnswered self.old (Event.Turn attempt) result self.new }
    {
        match &self.held {
            Some(Held::With(both)) => {
                self.attempts[attempt as usize].turn(&self.steps, &both.core)
            }
            _ => Reply::Fault(Fault::Closed),
        }
    }

    // Settles a plan that has ended.
    fn settle(&mut self, attempt: u8) -> Reply
        requires { attempt < 16 }
        ensures { IsAnswered self.old (Event.Settle attempt) result self.new }
    {
        match &mut self.held {
            Some(Held::With(both)) => both.settle_attempt(&mut self.attempts[attempt as usize]),
            _ => Reply::Fault(Fault::Closed),
        }
    }

    // Makes the oldest transactions that wait durable, as long as any record would still fit into the batch.
    fn flush(&mut self) -> Reply
        ensures { IsAnswered self.old Event.Flush result self.new }
    {
        match &mut self.held {
            Some(Held::With(both)) => match both.flush() {
                Ok(durable) => Reply::Durable(durable),
                Err(fault) => Reply::Fault(fault),
            },
            _ => Reply::Fault(Fault::Closed),
        }
    }

    // Writes the durable state as the next image, and frees every slot.
    fn checkpoint(&mut self) -> Reply
        ensures { IsAnswered self.old Event.Checkpoint result self.new }
    {
        match &mut self.held {
            Some(Held::With(both)) => match both.checkpoint() {
                Ok(()) => Reply::Checkpointed,
                Err(fault) => Reply::Fault(fault),
            },
            _ => Reply::Fault(Fault::Closed),
        }
    }

    // Asks how many transactions are durable.
    fn look(&self) -> Reply
        ensures { IsAnswered self.now Event.Look result self.now }
    {
        match &self.held {
            Some(Held::With(both)) => Reply::Looked(both.core.durable()),
            _ => Reply::Fault(Fault::Closed),
        }
    }

    // Drops the core, the journal and what the attempts hold, and opens the device again.
    fn reopen(&mut self) -> Reply
        ensures { IsAnswered self.old Event.Reopen result self.new }
    {
        represents_one();
        spent_is_at_last();
        clear(&mut self.attempts);
        let layout = self.layout;
        let (disk, table) = self.held.take().unwrap().into_parts();
        match Opening::open(self.alloc, disk, layout.vars, layout.slots, table) {
            Ok(opening) => {
                let (both, _) = CoreAndJournal::of(opening);
                let count = both.core.count();
                self.held = Some(Held::With(both));
                Reply::Opened(count)
            }
            Err((fault, disk, table)) => {
                let left = DeviceAndTable {
                    disk,
                    layout,
                    table,
                };
                self.held = Some(Held::Without(left));
                Reply::Fault(fault)
            }
        }
    }
}

// Attempts that hold nothing.
fn empty_attempts(alloc: Global) -> Result<Vec<WorldAttempt>, AllocError>
    ensures emptied { IfOk result (λ attempts. All (λ attempt. attempt.plan ≡ None) attempts.items) }
    ensures len { IfOk result (λ attempts. length attempts.items ≡ 16) }
{
    let mut attempts = Vec::with_capacity(alloc, ATTEMPTS)?;
    for _ in 0..ATTEMPTS {
        attempts.push(WorldAttempt::new(alloc))?;
    }
    Ok(attempts)
}

// Empties each attempt, which keeps its memory.
fn clear(attempts: &mut Vec<WorldAttempt>)
    ensures emptied { All (λ attempt. attempt.plan ≡ None) attempts.new.items }
    ensures len { length attempts.new.items ≡ length attempts.old.items }
{
    for attempt in attempts.iter_mut() {
        attempt.plan = None;
    }
}
