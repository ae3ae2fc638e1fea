// The two locks, and the spine beside them.
ghost use Rattle.std.specs.Prelude.{◌≡◌, ◌≢◌, ◌≤◌, ◌<◌, ◌↔◌, true, false, Err, length, IsTrue, IfOk, IfErr};
ghost use Rattle.std.specs.Sync.Mutex.{mutex_guard_value};
ghost use Rattle.tmem_journal.specs.Held.{is_closed_of};
ghost use Rattle.tmem_seats.specs.Flushing.{BatchGoesOn, IsFlushRefusal, IsCheckpointRefusal, IsFlusherRefusal};
ghost use Rattle.tmem_effect.specs.Prefix.{IsPrefix};
ghost use Rattle.tmem_effect.specs.Names.{has_name};
ghost use Rattle.tmem_tentative.specs.Fits.{IsForVariables, IsForNames};
ghost use Rattle.tmem_tentative.specs.Right.{IsRight};
ghost use Rattle.tmem_tentative.specs.Cursors.{HasEnded, attempt_of};
ghost use Rattle.tmem_tree.specs.Plans.{BreaksNone, IsLeastBroken, IsShortTx, FitsSteps, FitsVariables, FitsNames, FitsSignatures};
ghost use Rattle.tmem_tree.specs.Signatures.{AreMeant, AreWithin, names_of};
ghost use Rattle.tmem_tree.specs.StepAnswers.{StepMeanings};
ghost use Rattle.tmem_spine.specs.History.{count, longer};
ghost use Rattle.tmem_spine.specs.Views.{new_pass};
ghost use Rattle.tmem_spine.specs.declared.spine.TheConstants.{MOST_PASSES};
ghost use Rattle.tmem_core.specs.SettleAnswer.{has_changed};
ghost use Rattle.tmem_seats.specs.Histories.{state_after_history, IsLeftOpen, IsPossibleValue};
ghost use Rattle.tmem_seats.specs.Settling.{SettlesPass, SettlesPlan};

use crate::brief_lock::BriefLock;
use crate::conditions::Conditions;
use crate::deciding::decide;
use crate::pool::Pool;
use crate::returned::Returned;
use crate::writing::write;
use std::alloc::Global;
use std::sync::{Mutex, MutexGuard, Wait};
use tmem_core::{Decision, Settled};
use tmem_disk::Disk;
use tmem_fault::{Cause, Fault};
use tmem_invariants::Invariants;
use tmem_seats::{CoreSeat, Failure, JournalSeat, LogCounts, Pass, StoreNaming, with_registers};
use tmem_spine::{PassSide, Spine};
use tmem_tentative::{Attempt, Cursor, Probe, Progress};
use tmem_tree::{Plan, Signature, StoredSteps, Tx};

/// A store that threads share. A pass is used with its own front, and a plan or an attempt with the front that made it.
pub struct Front<D: Disk, N: StoreNaming, T: Invariants, S: StoredSteps> {
    pub(crate) alloc: Global,
    pub(crate) vars: u16,
    pub(crate) steps: S,
    // what a plan has to know of the invariants, in the table's order
    pub(crate) signatures: Vec<Signature>,
    pub(crate) spine: Spine<N>,
    pub(crate) core: BriefLock<CoreSeat<N, T>>,
    // what is waited for under the core's lock; all are told where the front is shut
    pub(crate) conditions: Conditions,
    pub(crate) journal: Mutex<JournalSeat<D, N>>,
    // passes that are lent, and what is waited for where all are
    pub(crate) pool: Mutex<Pool<N>>,
    pub(crate) returned: Returned,

    /// It is over the variables of the opening state.
    pub ghost over: { vars ≡ length N.opening.values },

    /// The names are the program's.
    pub ghost named: { names_of signatures.items ≡ N.program.names },

    /// Each has the footprint that the program means, over the variables that are there.
    pub ghost meant: { AreMeant N.program.tests signatures.items },
    pub ghost within: { AreWithin vars signatures.items },

    /// The steps answer what they mean.
    pub ghost stated: { ∥ S.is_stated steps N.program.steps ∥₁ },
}

// By hand, so that a function that drops one makes one call.
impl<D: Disk + Drop, N: StoreNaming, T: Invariants + Drop, S: StoredSteps + Drop> Drop
    for Front<D, N, T, S> {
    fn drop(self) {
        let Front {
            alloc: _alloc,
            vars: _vars,
            steps: _steps,
            signatures: _signatures,
            spine: _spine,
            core: _core,
            conditions: _conditions,
            journal: _journal,
            pool: _pool,
            returned: _returned,
        } = self;
    }
}

impl<D: Disk + Drop, N: StoreNaming, T: Invariants + Drop, S: StoredSteps + Drop> Front<
    D,
    N,
    T,
    S,
> {
    ghost use Rattle.tmem_seats.specs.Held.{journal_of, side_of, batch_of};

    /// A pass that knows nothing yet, with a mark of its own. Refused with `NoSeat` once 32 were given out, also where
    /// they were dropped.
    pub fn pass<R: Wait>(&self, rt: &R) -> Result<Pass<N>, Fault>
        ensures pass { IfOk result (λ pass. (pass ≡ new_pass pass.mark) × (pass.mark < MOST_PASSES)) }
        ensures none { IfErr result (λ fault. fault ≡ Fault.NoSeat) }
    {
        let mut core = self.core.lock(rt);
        let number = core.given();
        let seat = core.pass(&self.spine)?;
        Ok(Pass {
            seat,
            cursor: Cursor::idle(self.alloc),
            number,
            is_pooled: false,
        })
    }

    /// An attempt at a plan of this front: it is evaluated, each value that it needs is peeked at, and what it checks is tested, until
    /// it has ended. Refused by `Memory`.
    pub fn attempt<R: Wait>(&self, rt: &R, plan: &Plan) -> Result<Attempt, Fault>
        requires steps { FitsSteps (S.arities self.now.steps) plan.now.tree }
        requires variables { FitsVariables self.now.vars plan.now }
        requires names { FitsNames N.program.names plan.now.tree }
        requires signatures { FitsSignatures N.program.tests plan.now }
        ensures right { (m : StepMeanings) → S.is_stated self.now.steps m → IfOk result (IsRight m N.program.tests plan.now.tree) }
        ensures variables { IfOk result (IsForVariables (length N.opening.values)) }
        ensures names { IfOk result (IsForNames N.program.names) }
        ensures memory { IfErr result (λ fault. fault ≡ Fault.Memory) }
    {
        let mut cursor = Cursor::idle(self.alloc);
        self.evaluate(rt, &mut cursor, plan)?;
        Ok(cursor.into_attempt())
    }

    /// Settles an attempt in one atomic step, after all that the pass knew. Refused as a core refuses it.
    pub fn settle<R: Wait>(
        &self,
        rt: &R,
        pass: &mut Pass<N>,
        attempt: &Attempt,
    ) -> Result<Settled, Fault>
        requires variables { IsForVariables (length N.opening.values) attempt.now }
        requires names { IsForNames N.program.names attempt.now }
        ensures settled { SettlesPass N.name.start N.opening N.program attempt.now pass.old result pass.new }
    {
        self.settle_under(self.core.lock(rt), &mut pass.seat, attempt)
    }

    // The same under the core's lock, for the seat of a pass. Then it lets the lock go. Values that are present give no conflict.
    fn settle_under(
        &self,
        mut core: MutexGuard<CoreSeat<N, T>>,
        seat: &mut PassSide<N>,
        attempt: &Attempt,
    ) -> Result<Settled, Fault>
        requires variables { IsForVariables (length N.opening.values) attempt.now }
        requires names { IsForNames N.program.names attempt.now }
        ensures settled { SettlesPass N.name.start N.opening N.program attempt.now seat.old result seat.new }
        ensures present { has_changed (state_after_history N.opening (mutex_guard_value core.entry).committed) attempt.now.reads.entries ≡ false → result ≢ Err Fault.Conflict }
    {
        let decision = decide(&mut core, &self.spine, seat, attempt);
        self.unlock_and_wake(core, &decision, attempt);
        with_registers(decision, attempt)
    }

    // Lets the core's lock go. What was committed under it wakes the flushers, and each pass that waits for such a commit.
    pub(crate) fn unlock_and_wake(
        &self,
        core: MutexGuard<CoreSeat<N, T>>,
        decision: &Result<Decision, Fault>,
        attempt: &Attempt,
    ) {
        if let Ok(Decision::Committed(_)) = decision {
            self.conditions.tell_commit(core, &attempt.effect);
        }
    }

    /// One attempt at a plan of this front, which is settled. It is made in the memory of the pass, and not copied. That of a short plan
    /// is made under one hold of the core's lock, and meets no conflict. Refused as a core refuses it, and by `Memory`.
    pub fn try_atomically<R: Wait>(
        &self,
        rt: &R,
        pass: &mut Pass<N>,
        plan: &Plan,
    ) -> Result<Settled, Fault>
        requires steps { FitsSteps (S.arities self.now.steps) plan.now.tree }
        requires variables { FitsVariables self.now.vars plan.now }
        requires names { FitsNames N.program.names plan.now.tree }
        requires signatures { FitsSignatures N.program.tests plan.now }
        ensures settled { SettlesPlan N.name.start N.opening N.program plan.now.tree pass.old result pass.new }
        ensures short { IsShortTx plan.now.tree → result ≢ Err Fault.Conflict }
    {
        if plan.is_short() {
            return self.try_alone(rt, &mut pass.seat, &mut pass.cursor, plan);
        }
        self.evaluate(rt, &mut pass.cursor, plan)?;
        self.settle_under(self.core.lock(rt), &mut pass.seat, pass.cursor.attempt())
    }

    // Evaluates a plan and settles the attempt under one hold of the core's lock.
    fn try_alone<R: Wait>(
        &self,
        rt: &R,
        seat: &mut PassSide<N>,
        cursor: &mut Cursor,
        plan: &Plan,
    ) -> Result<Settled, Fault>
        requires steps { FitsSteps (S.arities self.now.steps) plan.now.tree }
        requires variables { FitsVariables self.now.vars plan.now }
        requires names { FitsNames N.program.names plan.now.tree }
        requires signatures { FitsSignatures N.program.tests plan.now }
        ensures settled { SettlesPlan N.name.start N.opening N.program plan.now.tree seat.old result seat.new }
        ensures no_conflict { result ≢ Err Fault.Conflict }
    {
        let core = self.core.lock(rt);
        core.evaluate(rt, cursor, plan, &self.steps)?;
        self.settle_under(core, seat, cursor.attempt())
    }

    // Evaluates a plan in place, from its start to its end. Each value that it needs is peeked at, and each of its tests is made, and
    // the lock is held for that alone.
    pub(crate) fn evaluate<R: Wait>(
        &self,
        rt: &R,
        cursor: &mut Cursor,
        plan: &Plan,
    ) -> Result<(), Fault>
        requires steps { FitsSteps (S.arities self.now.steps) plan.now.tree }
        requires variables { FitsVariables self.now.vars plan.now }
        requires names { FitsNames N.program.names plan.now.tree }
        requires signatures { FitsSignatures N.program.tests plan.now }
        ensures ended { IfOk result (λ _. HasEnded cursor.new) }
        ensures right { (m : StepMeanings) → S.is_stated self.now.steps m → IfOk result (λ _. IsRight m N.program.tests plan.now.tree (attempt_of cursor.new)) }
        ensures variables { IfOk result (λ _. IsForVariables (length N.opening.values) (attempt_of cursor.new)) }
        ensures names { IfOk result (λ _. IsForNames N.program.names (attempt_of cursor.new)) }
        ensures memory { IfErr result (λ fault. fault ≡ Fault.Memory) }
    {
        cursor.restart(plan)?;
        for _ in rt.forever() {
            match cursor.advance(plan, &self.steps)? {
                Progress::Need(var) => {
                    let value = self.peek(rt, var);
                    cursor.give(var, value);
                }
                Progress::Probe => {
                    let held = self.probe(rt, cursor.probe());
                    cursor.answer(held);
                }
                Progress::Ended => return Ok(()),
            }
        }
        unreachable!()
    }

    /// How many transactions are durable, all of which the pass then saw. It takes no lock.
    pub fn look(&self, pass: &mut Pass<N>) -> u64
        ensures pass { pass.new ≡ record pass.old { seen = pass.new.seen; known = longer pass.old.known pass.new.seen } }
        ensures answer { result ≡ count N.name.start pass.new.seen }
        ensures later { IsPrefix pass.old.seen pass.new.seen }
        ensures least { count N.name.start pass.old.seen ≤ result }
        ensures begins { IsPrefix pass.old.known pass.new.known }
    {
        self.spine.look(&mut pass.seat)
    }

    /// How many are durable, by the journal itself. Where the pass has an own effect at this number, `JournalSeat::vouch`
    /// states that it is among these, and `JournalSeat::crash_leaves` that every crash leaves a state after them.
    pub fn vouch<R: Wait>(&self, rt: &R, pass: &mut Pass<N>, number: u64) -> u64
        requires { number < count N.name.start pass.old.seen }
        ensures least { count N.name.start pass.old.seen ≤ result }
        ensures most { result ≤ count N.name.start pass.new.known }
        ensures begins { IsPrefix pass.old.known pass.new.known }
        ensures same { (pass.new.mark ≡ pass.old.mark) × (pass.new.seen ≡ pass.old.seen) × (pass.new.own ≡ pass.old.own) }
    {
        let mut seat = self.journal.lock(rt);
        seat.vouch(&self.spine, &mut pass.seat, number)
    }

    /// Makes the oldest transactions that wait durable, as long as any other would still fit into a batch, and answers
    /// how many are durable then. It writes nothing where none waits. Refused by `Closed` once the journal is closed,
    /// and as a journal refuses a batch. No call of the device is made under the core's lock.
    pub fn flush_once<R: Wait>(&self, rt: &R) -> Result<u64, Fault>
        ensures least { IfOk result (λ number. N.name.start ≤ number) }
        ensures refused { IfErr result IsFlushRefusal }
    {
        self.flush_by(rt, false)
    }

    /// Flushes once, and where the log is full makes a checkpoint first. The journal's lock is held over both, so nobody fills the
    /// log in between. Refused as `flush_once` and `checkpoint` are, but never by `LogFull`.
    pub fn flush_with_room<R: Wait>(&self, rt: &R) -> Result<u64, Fault>
        ensures least { IfOk result (λ number. N.name.start ≤ number) }
        ensures refused { IfErr result IsFlusherRefusal }
    {
        self.flush_by(rt, true)
    }

    // Flushes once under the journal's lock, and makes room in a full log where that is asked for.
    fn flush_by<R: Wait>(&self, rt: &R, makes_room: bool) -> Result<u64, Fault>
        ensures least { IfOk result (λ number. N.name.start ≤ number) }
        ensures plain { makes_room ≡ false → IfErr result IsFlushRefusal }
        ensures roomy { makes_room ≡ true → IfErr result IsFlusherRefusal }
    {
        let mut held = self.journal.lock(rt);
        let journal = &mut *held;
        if journal.is_closed() {
            return Err(Fault::Closed);
        }
        let is_waiting = self.aim(rt, journal);
        if !is_waiting {
            return Ok(journal.count());
        }
        let flushed = write(journal, &self.spine, makes_room);
        self.tell(rt, journal, Failure::of(&flushed));
        flushed
    }

    /// Makes an image of the durable state, and frees every slot of the log. Refused as a journal refuses it.
    pub fn checkpoint<R: Wait>(&self, rt: &R) -> Result<(), Fault>
        ensures refused { IfErr result IsCheckpointRefusal }
    {
        let mut journal = self.journal.lock(rt);
        let written = journal.checkpoint();
        self.tell(rt, &mut journal, Failure::of(&written));
        written
    }

    /// How many flushes and checkpoints were made since it was opened, and how many slots of the log are free.
    pub fn log<R: Wait>(&self, rt: &R) -> LogCounts {
        self.journal.lock(rt).log()
    }

    // With the core's lock too, for as long as a batch is taken.
    fn aim<R: Wait>(&self, rt: &R, journal: &mut JournalSeat<D, N>) -> bool
        requires { is_closed_of (journal_of journal.old) ≡ false }
        ensures same { (journal_of journal.new ≡ journal_of journal.old) × ((side_of journal.new).durable ≡ (side_of journal.old).durable) }
        ensures goes_on { BatchGoesOn N.name.start N.opening (side_of journal.old).durable (batch_of journal.new) (side_of journal.new).aimed }
        ensures some { IsTrue result ↔ (1 ≤ length (batch_of journal.new)) }
    {
        let mut core = self.core.lock(rt);
        journal.aim(&self.spine, &mut core)
    }

    // With the core's lock too, for a moment after a call of the device.
    fn tell<R: Wait>(&self, rt: &R, journal: &mut JournalSeat<D, N>, failure: Failure)
        ensures { (journal_of journal.new ≡ journal_of journal.old) × (side_of journal.new ≡ side_of journal.old) }
    {
        let mut core = self.core.lock(rt);
        let is_shut = journal.tell(&self.spine, &mut core, failure);
        self.conditions.tell(core, journal);
        if is_shut {
            self.close_pool(rt);
        }
    }

    /// The present value of a variable, also where the front is shut. The clause says no more than that it may be one:
    /// which it is, is known under the lock alone (`CoreSeat::peek`).
    pub fn peek<R: Wait>(&self, rt: &R, var: u16) -> i64
        requires { var < length N.opening.values }
        ensures { IsPossibleValue N.program N.opening var result }
    {
        self.core.lock(rt).peek(var)
    }

    // Whether an invariant holds on these values, which a transaction sees at its point.
    fn probe<R: Wait>(&self, rt: &R, probe: &Probe) -> bool
        requires named { has_name N.program.names probe.now.name ≡ true }
        requires filled { length probe.now.values ≡ length (N.program.tests.footprint probe.now.name) }
        ensures { result ≡ N.program.tests.test probe.now.name probe.now.values }
    {
        self.core.lock(rt).probe(probe)
    }

    /// How often calls that wait have tried what they wait for. One that sleeps tries once each time that it is woken.
    pub fn tries<R: Wait>(&self, rt: &R) -> u64 {
        let tries = self.core.lock(rt).tries();
        tries.wrapping_add(self.pool.lock(rt).tries)
    }

    /// The plan of a transaction. Refused with `BadPlan` and the least cause for which it is outside the limits.
    pub fn plan(&self, tx: Tx) -> Result<Plan, Fault>
        ensures plan { IfOk result (λ plan. plan.tree ≡ tx) }
        ensures fine { IfOk result (λ _. BreaksNone (S.arities self.now.steps) self.now.vars N.program.names tx) }
        ensures steps { IfOk result (λ plan. FitsSteps (S.arities self.now.steps) plan.tree) }
        ensures variables { IfOk result (FitsVariables self.now.vars) }
        ensures names { IfOk result (λ plan. FitsNames N.program.names plan.tree) }
        ensures signatures { IfOk result (FitsSignatures N.program.tests) }
        ensures least { IfErr result (λ fault. (cause : Cause) × (fault ≡ Fault.BadPlan cause) × IsLeastBroken (S.arities self.now.steps) self.now.vars N.program.names tx cause) }
    {
        Plan::new(tx, &self.steps, self.vars, &self.signatures)
    }

    /// The device, once nobody uses the store any more. Every crash leaves the state after a history of the store, or after it and
    /// what a flush of unknown outcome aimed at.
    pub fn into_disk(self) -> D
        ensures { ∥ IsLeftOpen N.opening (D.view result) ∥₁ }
    {
        let Front {
            alloc: _alloc,
            vars: _vars,
            steps: _steps,
            signatures: _signatures,
            spine: _spine,
            core: _core,
            conditions: _conditions,
            journal,
            pool: _pool,
            returned: _returned,
        } = self;
        journal.into_inner().into_disk()
    }
}
