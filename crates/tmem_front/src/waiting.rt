// The calls that wait for other threads.
ghost use Rattle.std.specs.Prelude.{ℕ, ℤ, List, ◌≡◌, ◌≢◌, ◌⊎◌, ◌<◌, ◌≤◌, true, false, [], Ok, Err, IfOk, IfErr, OnOk, length, IsTrue};
ghost use Rattle.tmem_effect.specs.declared.effect.Effect.{Effect as EffectOf};
ghost use Rattle.tmem_core.specs.Decisions.{answer_of, RetriesAt};
ghost use Rattle.tmem_core.specs.SettleAnswer.{committed_by, has_changed};
ghost use Rattle.tmem_effect.specs.Prefix.{IsPrefix};
ghost use Rattle.tmem_tree.specs.Plans.{IsShortTx, FitsSteps, FitsVariables, FitsNames, FitsSignatures};
ghost use Rattle.tmem_tentative.specs.Cursors.{HasEnded, attempt_of};
ghost use Rattle.tmem_tentative.specs.Fits.{IsForVariables, IsForNames};
ghost use Rattle.tmem_spine.specs.History.{count};
ghost use Rattle.std.specs.Sync.Mutex.{mutex_guard_value};
ghost use Rattle.tmem_seats.specs.Flushing.{IsFlusherRefusal};
ghost use Rattle.tmem_seats.specs.Seats.{HasMoreOrShut, HasFlushedOrEnded, HasRoomOrShut, HasWorkOrShut};
ghost use Rattle.tmem_seats.specs.Histories.{state_after_history};
ghost use Rattle.tmem_seats.specs.Settling.{SettlesPass, SettlesAtLast, SettlesPlan};

use crate::deciding::decide;
use crate::front::Front;
use crate::pace::Pace;
use crate::patience::{Endless, Patience};
use std::sync::{MutexGuard, Wait};
use std::thread::yield_now;
use tmem_core::{Decision, Settled};
use tmem_disk::Disk;
use tmem_fault::Fault;
use tmem_invariants::Invariants;
use tmem_seats::{CoreSeat, Pass, StoreNaming};
use tmem_spine::PassSide;
use tmem_tentative::{Attempt, Cursor};
use tmem_tree::{Plan, StoredSteps};

// After so many conflicts a plan is evaluated under the core's lock.
const MOST_CONFLICTS: u32 = 2;

// How a turn is made: by the pass of this number, under one hold of the core's lock or not, and whether it waits where it finds no
// room.
#[derive(Clone, Copy)]
struct Turn {
    number: u64,
    is_alone: bool,
    waits_for_room: bool,
}

// How often a caller tries before it sleeps. To wake a thread takes about as long as a flush of a fast disk.
const LOOKS: u32 = 100;

impl<D: Disk + Drop, N: StoreNaming, T: Invariants + Drop, S: StoredSteps + Drop> Front<
    D,
    N,
    T,
    S,
> {
    /// Attempts a plan of this front until it is settled: at once after a conflict, and after a retry once another transaction was
    /// committed that may have written a variable which it read. A short plan, and any other after two conflicts, is evaluated under the
    /// core's lock, where it meets none: so a stored step must wait for nothing that a caller of the front may hold. Refused as a core
    /// refuses it, but for `Conflict`, and by `Memory`.
    pub fn atomically<R: Wait>(
        &self,
        rt: &R,
        pass: &mut Pass<N>,
        plan: &Plan,
    ) -> Result<Settled, Fault>
        requires steps { FitsSteps (S.arities self.now.steps) plan.now.tree }
        requires variables { FitsVariables self.now.vars plan.now }
        requires names { FitsNames N.program.names plan.now.tree }
        requires signatures { FitsSignatures N.program.tests plan.now }
        ensures settled { SettlesAtLast N.name.start N.opening N.program plan.now.tree pass.old result pass.new }
        ensures no_conflict { result ≢ Err Fault.Conflict }
        ensures no_retry { result ≢ Ok Settled.Retry }
    {
        self.run(rt, &Endless::new(rt), pass, plan, false)
    }

    /// As `atomically`, and where as many transactions wait to be durable as may, it waits for a flush and goes on. So it is not refused by
    /// `Full`. Where nobody flushes, it waits until the front is shut.
    pub fn atomically_with_room<R: Wait>(
        &self,
        rt: &R,
        pass: &mut Pass<N>,
        plan: &Plan,
    ) -> Result<Settled, Fault>
        requires steps { FitsSteps (S.arities self.now.steps) plan.now.tree }
        requires variables { FitsVariables self.now.vars plan.now }
        requires names { FitsNames N.program.names plan.now.tree }
        requires signatures { FitsSignatures N.program.tests plan.now }
        ensures settled { SettlesAtLast N.name.start N.opening N.program plan.now.tree pass.old result pass.new }
        ensures no_conflict { result ≢ Err Fault.Conflict }
        ensures no_retry { result ≢ Ok Settled.Retry }
        ensures no_full { result ≢ Err Fault.Full }
    {
        self.run(rt, &Endless::new(rt), pass, plan, true)
    }

    // Attempts a plan until it is settled, or the patience was over before an attempt. A full core is an end, but where room is waited
    // for.
    pub(crate) fn run<R: Wait, P: Patience>(
        &self,
        rt: &R,
        patience: &P,
        pass: &mut Pass<N>,
        plan: &Plan,
        waits_for_room: bool,
    ) -> Result<Settled, Fault>
        requires steps { FitsSteps (S.arities self.now.steps) plan.now.tree }
        requires variables { FitsVariables self.now.vars plan.now }
        requires names { FitsNames N.program.names plan.now.tree }
        requires signatures { FitsSignatures N.program.tests plan.now }
        ensures settled { SettlesAtLast N.name.start N.opening N.program plan.now.tree pass.old result pass.new }
        ensures no_conflict { result ≢ Err Fault.Conflict }
        ensures no_retry { (P.ends patience.now → ⊥) → result ≢ Ok Settled.Retry }
        ensures no_full { (P.ends patience.now → ⊥) → waits_for_room ≡ true → result ≢ Err Fault.Full }
    {
        let mut left = MOST_CONFLICTS;
        for _ in rt.forever() {
            let is_late = patience.is_over();
            let how = Turn {
                number: pass.number,
                is_alone: left == 0,
                waits_for_room,
            };
            let answer = self.take_turn(rt, patience, &mut pass.seat, &mut pass.cursor, plan, how);
            if is_done(&answer, waits_for_room, is_late) {
                return whole(answer, &pass.cursor);
            }
            left = conflicts_left(left, &answer);
        }
        unreachable!()
    }

    // Attempts a plan once and settles the attempt, under one hold of the core's lock where it is to be alone or is short. Waits where
    // it retries.
    fn take_turn<R: Wait, P: Patience>(
        &self,
        rt: &R,
        patience: &P,
        seat: &mut PassSide<N>,
        cursor: &mut Cursor,
        plan: &Plan,
        how: Turn,
    ) -> Result<Decision, Fault>
        requires steps { FitsSteps (S.arities self.now.steps) plan.now.tree }
        requires variables { FitsVariables self.now.vars plan.now }
        requires names { FitsNames N.program.names plan.now.tree }
        requires signatures { FitsSignatures N.program.tests plan.now }
        ensures settled { SettlesPlan N.name.start N.opening N.program plan.now.tree seat.old (answer_of result (attempt_of cursor.new).registers) seat.new }
        ensures ended { IfOk result (λ _. HasEnded cursor.new) }
        ensures short { IsShortTx plan.now.tree → result ≢ Err Fault.Conflict }
    {
        if how.is_alone || plan.is_short() {
            return self.run_or_wait(rt, patience, seat, cursor, plan, how);
        }
        self.evaluate(rt, cursor, plan)?;
        let held = self.core.lock(rt);
        self.settle_or_wait(rt, patience, held, seat, cursor.attempt(), how)
    }

    // Settles an attempt under the core's lock, and lets that go. What retries waits under the same lock until another transaction has
    // written what it read, and what finds no room until a flush made some, if it is to wait for that; or until the front is shut.
    // Values that are present give no conflict.
    fn settle_or_wait<R: Wait, P: Patience>(
        &self,
        rt: &R,
        patience: &P,
        mut core: MutexGuard<CoreSeat<N, T>>,
        seat: &mut PassSide<N>,
        attempt: &Attempt,
        how: Turn,
    ) -> Result<Decision, Fault>
        requires variables { IsForVariables (length N.opening.values) attempt.now }
        requires names { IsForNames N.program.names attempt.now }
        ensures settled { SettlesPass N.name.start N.opening N.program attempt.now seat.old (answer_of result attempt.now.registers) seat.new }
        ensures present { has_changed (state_after_history N.opening (mutex_guard_value core.entry).committed) attempt.now.reads.entries ≡ false → result ≢ Err Fault.Conflict }
    {
        let decision = decide(&mut core, &self.spine, seat, attempt);
        self.wait_or_wake(rt, patience, core, &decision, attempt, how);
        decision
    }

    // Waits under the core's lock where the decision asks for that, and lets it go.
    fn wait_or_wake<R: Wait, P: Patience>(
        &self,
        rt: &R,
        patience: &P,
        core: MutexGuard<CoreSeat<N, T>>,
        decision: &Result<Decision, Fault>,
        attempt: &Attempt,
        how: Turn,
    )
        requires { RetriesAt (count N.name.start (mutex_guard_value core).committed) decision.now }
    {
        match *decision {
            Ok(Decision::Retry(at)) => {
                drop(self.wait_for_another(rt, patience, core, at, how.number, attempt));
            }
            Err(Fault::Full) if how.waits_for_room => {
                drop(self.wait_for_room(rt, patience, core));
            }
            _ => self.unlock_and_wake(core, decision, attempt),
        }
    }

    // Evaluates a plan and settles the attempt under one hold of the core's lock, so that no other thread comes in between.
    fn run_or_wait<R: Wait, P: Patience>(
        &self,
        rt: &R,
        patience: &P,
        seat: &mut PassSide<N>,
        cursor: &mut Cursor,
        plan: &Plan,
        how: Turn,
    ) -> Result<Decision, Fault>
        requires steps { FitsSteps (S.arities self.now.steps) plan.now.tree }
        requires variables { FitsVariables self.now.vars plan.now }
        requires names { FitsNames N.program.names plan.now.tree }
        requires signatures { FitsSignatures N.program.tests plan.now }
        ensures settled { SettlesPlan N.name.start N.opening N.program plan.now.tree seat.old (answer_of result (attempt_of cursor.new).registers) seat.new }
        ensures ended { IfOk result (λ _. HasEnded cursor.new) }
        ensures no_conflict { result ≢ Err Fault.Conflict }
    {
        let core = self.core.lock(rt);
        core.evaluate(rt, cursor, plan, &self.steps)?;
        self.settle_or_wait(rt, patience, core, seat, cursor.attempt(), how)
    }

    // Waits under the core's lock until more than so many are committed, which are as many as at first, the front is shut, or the
    // patience is over. A commit wakes the pass of this number that writes what the attempt read.
    fn wait_for_another<'a, R: Wait, P: Patience>(
        &self,
        rt: &R,
        patience: &P,
        mut core: MutexGuard<'a, CoreSeat<N, T>>,
        at: u64,
        number: u64,
        attempt: &Attempt,
    ) -> MutexGuard<'a, CoreSeat<N, T>>
        requires { at ≡ count N.name.start (mutex_guard_value core).committed }
        ensures { HasMoreOrShut N.name.start at (mutex_guard_value result) ⊎ P.ends patience.now }
    {
        for _ in rt.forever() {
            if core.has_more(at) || patience.is_over() {
                return core;
            }
            core = self
                .conditions
                .sleep_for_another(patience, core, at, number, attempt);
        }
        unreachable!()
    }

    // Waits under the core's lock until fewer wait to be durable than may, the front is shut, or the patience is over.
    fn wait_for_room<'a, R: Wait, P: Patience>(
        &self,
        rt: &R,
        patience: &P,
        mut held: MutexGuard<'a, CoreSeat<N, T>>,
    ) -> MutexGuard<'a, CoreSeat<N, T>>
        ensures { HasRoomOrShut N.name.start (mutex_guard_value result) ⊎ P.ends patience.now }
    {
        for _ in rt.forever() {
            if held.has_room() || patience.is_over() {
                return held;
            }
            held = self.conditions.sleep_for_room(patience, held);
        }
        unreachable!()
    }

    /// Waits until more than `number` transactions are durable. The pass saw these then. Refused by `Closed` where the front was
    /// shut and they are not.
    pub fn await_durable<R: Wait>(
        &self,
        rt: &R,
        pass: &mut Pass<N>,
        number: u64,
    ) -> Result<(), Fault>
        ensures durable { OnOk result (number < count N.name.start pass.new.seen) }
        ensures refused { IfErr result (λ fault. fault ≡ Fault.Closed) }
        ensures unseen { IfErr result (λ _. count N.name.start pass.new.seen ≤ number) }
        ensures pass { pass.new ≡ record pass.old { seen = pass.new.seen; known = pass.new.known } }
        ensures later { IsPrefix pass.old.seen pass.new.seen × IsPrefix pass.old.known pass.new.known }
    {
        if number < self.look_again(pass, number) {
            return Ok(());
        }
        drop(self.wait_for_flush(rt, &Endless::new(rt), self.core.lock(rt), number));
        let durable = self.look(pass);
        if number < durable {
            Ok(())
        } else {
            Err(Fault::Closed)
        }
    }

    // Looks until more than so many are durable, and lets other threads run in between. It gives up after a while.
    pub(crate) fn look_again(&self, pass: &mut Pass<N>, number: u64) -> u64
        ensures answer { result ≡ count N.name.start pass.new.seen }
        ensures pass { pass.new ≡ record pass.old { seen = pass.new.seen; known = pass.new.known } }
        ensures later { IsPrefix pass.old.seen pass.new.seen × IsPrefix pass.old.known pass.new.known }
    {
        for _ in 0..LOOKS {
            let seen = self.look(pass);
            if number < seen {
                return seen;
            }
            yield_now();
        }
        self.look(pass)
    }

    // Waits under the core's lock until more than so many are known durable, the front is shut, or the patience is over.
    pub(crate) fn wait_for_flush<'a, R: Wait, P: Patience>(
        &self,
        rt: &R,
        patience: &P,
        mut core: MutexGuard<'a, CoreSeat<N, T>>,
        number: u64,
    ) -> MutexGuard<'a, CoreSeat<N, T>>
        ensures { HasFlushedOrEnded number (mutex_guard_value result) ⊎ P.ends patience.now }
    {
        for _ in rt.forever() {
            if core.has_flushed(number) || patience.is_over() {
                return core;
            }
            core = self.conditions.sleep_for_more(patience, core, number);
        }
        unreachable!()
    }

    /// Makes durable what is committed, batch by batch, until the pace ends it, or the front is shut and nothing waits. Where the
    /// log is full it makes a checkpoint. Refused as a flush or a checkpoint is.
    pub fn run_flusher<R: Wait, P: Pace>(&self, rt: &R, pace: &mut P) -> Result<(), Fault>
        ensures refused { IfErr result IsFlusherRefusal }
    {
        for _ in rt.forever() {
            if !self.has_turn(rt, pace) {
                return Ok(());
            }
            let core = self.wait_for_commit(rt, self.core.lock(rt));
            if !is_to_flush(core) {
                return Ok(());
            }
            self.flush_with_room(rt)?;
        }
        unreachable!()
    }

    // Whether a flusher takes another turn. Its pace is asked under no lock.
    fn has_turn<R: Wait, P: Pace>(&self, rt: &R, pace: &mut P) -> bool {
        if self.has_batch(rt) {
            pace.next_when_full()
        } else {
            pace.next()
        }
    }

    // Whether a whole batch waits to be durable.
    fn has_batch<R: Wait>(&self, rt: &R) -> bool {
        self.core.lock(rt).has_batch()
    }

    // Waits under the core's lock until a transaction waits to be durable, or the front is shut.
    fn wait_for_commit<'a, R: Wait>(
        &self,
        rt: &R,
        mut core: MutexGuard<'a, CoreSeat<N, T>>,
    ) -> MutexGuard<'a, CoreSeat<N, T>>
        ensures { HasWorkOrShut N.name.start (mutex_guard_value result) }
    {
        for _ in rt.forever() {
            if core.has_work() {
                return core;
            }
            core = self.conditions.sleep_for_work(rt, core);
        }
        unreachable!()
    }
}

// Lets the core's lock go where there is work or the front is shut. Answers whether a transaction waits to be durable.
fn is_to_flush<N: StoreNaming, T: Invariants + Drop>(core: MutexGuard<CoreSeat<N, T>>) -> bool
    requires { HasWorkOrShut N.name.start (mutex_guard_value core) }
{
    core.has_waiting()
}

// The whole answer to the attempt that a cursor has ended with. Only here the registers are copied.
fn whole(decision: Result<Decision, Fault>, cursor: &Cursor) -> Result<Settled, Fault>
    requires { IfOk decision (λ _. HasEnded cursor.now) }
    ensures { result ≡ answer_of decision (attempt_of cursor.now).registers }
{
    let decision = decision?;
    Ok(decision.settled(&cursor.attempt().registers))
}

// How many conflicts are left to meet after this answer. After a wait they are counted anew.
fn conflicts_left(left: u32, answer: &Result<Decision, Fault>) -> u32 {
    match answer {
        Err(Fault::Conflict) => left.saturating_sub(1),
        _ => MOST_CONFLICTS,
    }
}

// Whether this answer is told: it is the last one, or the plan would wait and the patience was over.
fn is_done(answer: &Result<Decision, Fault>, waits_for_room: bool, is_late: bool) -> bool
    ensures no_conflict { (registers : List ℤ) → IsTrue result → answer_of answer.now registers ≢ Err Fault.Conflict }
    ensures no_retry { (registers : List ℤ) → IsTrue result → is_late ≡ false → answer_of answer.now registers ≢ Ok Settled.Retry }
    ensures no_full { (registers : List ℤ) → IsTrue result → is_late ≡ false → waits_for_room ≡ true → answer_of answer.now registers ≢ Err Fault.Full }
    ensures again { (registers : List ℤ) (effect : EffectOf) → result ≡ false → committed_by (answer_of answer.now registers) effect ≡ [] }
{
    is_last(answer, waits_for_room) || is_waited_for(answer) && is_late
}

// Whether a plan waits after this answer until it is attempted again.
fn is_waited_for(answer: &Result<Decision, Fault>) -> bool
    ensures { (registers : List ℤ) → IsTrue result → answer_of answer.now registers ≢ Err Fault.Conflict }
{
    matches!(answer, Ok(Decision::Retry(_)) | Err(Fault::Full))
}

// Whether a plan is not attempted again after this answer. It is after a retry and a conflict, and where it waits for room; nothing was
// committed then.
fn is_last(answer: &Result<Decision, Fault>, waits_for_room: bool) -> bool
    ensures last { (registers : List ℤ) → IsTrue result → (answer_of answer.now registers ≢ Err Fault.Conflict) × (answer_of answer.now registers ≢ Ok Settled.Retry) }
    ensures no_full { (registers : List ℤ) → IsTrue result → waits_for_room ≡ true → answer_of answer.now registers ≢ Err Fault.Full }
    ensures only { result ≡ false → ((at : ℕ) × (answer.now ≡ Ok (Decision.Retry at))) ⊎ (answer.now ≡ Err Fault.Conflict) ⊎ ((answer.now ≡ Err Fault.Full) × (waits_for_room ≡ true)) }
    ensures again { (registers : List ℤ) (effect : EffectOf) → result ≡ false → committed_by (answer_of answer.now registers) effect ≡ [] }
{
    match answer {
        Ok(Decision::Retry(_)) => false,
        Ok(_) => true,
        Err(Fault::Conflict) => false,
        Err(Fault::Full) => !waits_for_room,
        Err(_) => true,
    }
}
