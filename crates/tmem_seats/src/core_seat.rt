// What lies under the core's lock.
ghost use Rattle.std.specs.Prelude.{◌≡◌, ◌↔◌, ◌+◌, ◌^◌, ◌<◌, ◌≤◌, slice_get, map, IfOk, IfErr, OnOk, Some, ◌++◌, ◌∷◌, [], true, false, length, MatchBool, All, IsTrue, IfSome, IfNone};
ghost use Rattle.tmem_effect.specs.Prefix.{IsPrefix};
ghost use Rattle.tmem_effect.specs.Names.{has_name};
ghost use Rattle.tmem_tentative.specs.declared.attempt.Attempt.{Attempt as AttemptOf};
ghost use Rattle.tmem_tentative.specs.Fits.{IsForVariables, IsForNames};
ghost use Rattle.tmem_core.specs.Held.{core_state, waiting_of, durable_of, is_shut_of, core_table};
ghost use Rattle.tmem_core.specs.Decisions.{answer_of, taken_by, RetriesAt};
ghost use Rattle.tmem_core.specs.Program.{IsProgramOf};
ghost use Rattle.tmem_spine.specs.History.{count};
ghost use Rattle.tmem_spine.specs.Views.{new_core, new_pass};
ghost use Rattle.tmem_spine.specs.declared.spine.TheConstants.{MOST_PASSES};
ghost use Rattle.tmem_state.specs.declared.records.TheConstants.{MAX_RECORDS};
ghost use Rattle.tmem_seats.specs.Deciding.{Decides};
ghost use Rattle.tmem_seats.specs.Flushing.{BatchGoesOn, TakesOldest};
ghost use Rattle.tmem_seats.specs.Histories.{state_after_history, marked, numbered, IsSoundState};
ghost use Rattle.tmem_seats.specs.Seats.{HasMoreOrShut, HasFlushedOrEnded, HasRoomOrShut, HasWorkOrShut, first_failure};

use crate::failure::Failure;
use crate::naming::StoreNaming;
use crate::sleepers::Sleepers;
use std::marker::Model;
use tmem_core::{Core, Decision, MAX_WAITING, Settled};
use tmem_effect::Effect;
use tmem_fault::{Fault, Name};
use tmem_invariants::Invariants;
use tmem_spine::{CoreSide, JournalSide, PassSide, Spine};
use tmem_state::{Batch, MAX_RECORDS};
use tmem_tentative::{Attempt, Probe, Reads};

/// The core, beside its seat. Contracts see what it committed, how many are known durable, how many passes it gave out,
/// whether it is shut, whether it then still waits for a flush, and how its device failed.
pub struct CoreSeat<N: StoreNaming, T: Invariants> {
    core: Core<T>,
    side: CoreSide<N>,
    // how often whoever waits has tried what it waits for
    tries: u64,
    // what waits for a flush goes on waiting, though it is shut
    is_draining: bool,
    failure: Failure,
    sleepers: Sleepers,
    // a flusher sleeps until something is committed
    is_flusher_asleep: bool,
}

// By hand, so that a function that drops one makes one call.
impl<N: StoreNaming, T: Invariants + Drop> Drop for CoreSeat<N, T> {
    fn drop(self) {
        let CoreSeat {
            core: _core,
            side: _side,
            tries: _tries,
            is_draining: _is_draining,
            failure: _failure,
            sleepers: _sleepers,
            is_flusher_asleep: _is_flusher_asleep,
        } = self;
    }
}

impl<N: StoreNaming, T: Invariants> Model for CoreSeat<N, T> {
    ghost use Rattle.std.specs.Prelude.{◌≡◌};
    ghost use Rattle.tmem_core.specs.Held.{is_shut_of};
    ghost use Rattle.tmem_seats.specs.Seats.{CoreSeatView, IsCoreOf};

    ghost Value = { CoreSeatView };

    ghost view = { λ s. record { committed = s.side.committed; trimmed = s.side.trimmed; given = s.side.given; is_shut = is_shut_of s.core; is_draining = s.is_draining; failure = s.failure } };

    ghost invariant = { λ s. IsCoreOf N.name.start N.opening N.program s.core s.side };
}

impl<N: StoreNaming, T: Invariants + Drop> CoreSeat<N, T> {
    /// A core that has committed nothing yet, beside its seat.
    pub fn new(core: Core<T>, side: CoreSide<N>) -> CoreSeat<N, T>
        requires opening { (core_state core ≡ N.opening) × (N.opening.count ≡ N.name.start) }
        requires fresh { (waiting_of core ≡ []) × (durable_of core ≡ N.name.start) × (side ≡ new_core N.name.start) }
        requires program { IsProgramOf T.Invariants (core_table core) N.program }
        ensures { (result.committed ≡ []) × (result.trimmed ≡ N.name.start) × (result.given ≡ 0) × (result.is_shut ≡ is_shut_of core) × (result.is_draining ≡ false) × (result.failure ≡ Failure.None) }
    {
        let (tries, is_draining, failure) = (0, false, Failure::None);
        CoreSeat {
            core,
            side,
            tries,
            is_draining,
            failure,
            sleepers: Sleepers::new(),
            is_flusher_asleep: false,
        }
    }

    /// Settles an attempt for a pass. The core first learns how many are durable, at least as many as the pass saw, and
    /// then answers by its present state. The answer leaves out the registers, which are those of the attempt. What commits
    /// is committed under the mark of the pass, which has it as its own. The pass knows all that is committed then.
    pub fn decide(
        &mut self,
        spine: &Spine<N>,
        pass: &mut PassSide<N>,
        attempt: &Attempt,
    ) -> Result<Decision, Fault>
        requires variables { IsForVariables (length N.opening.values) attempt.now }
        requires names { IsForNames N.program.names attempt.now }
        ensures decided { Decides N.name.start N.opening N.program attempt.now self.old pass.old (answer_of result attempt.now.registers) self.new pass.new }
        ensures retries { RetriesAt (count N.name.start self.old.committed) result }
    {
        let durable = spine.trim(&mut self.side, pass);
        self.core.learn_durable(durable);
        let decision = self.core.decide(attempt);
        enter(spine, &mut self.side, pass, &decision, attempt);
        decision
    }

    /// Settles an attempt as `decide` does, and answers with its registers.
    pub fn settle(
        &mut self,
        spine: &Spine<N>,
        pass: &mut PassSide<N>,
        attempt: &Attempt,
    ) -> Result<Settled, Fault>
        requires variables { IsForVariables (length N.opening.values) attempt.now }
        requires names { IsForNames N.program.names attempt.now }
        ensures { Decides N.name.start N.opening N.program attempt.now self.old pass.old result self.new pass.new }
    {
        let decision = self.decide(spine, pass, attempt);
        with_registers(decision, attempt)
    }

    /// Gives out a pass that knows nothing yet, under the mark that is next. Refused with `NoSeat` exactly where as
    /// many were given out as a spine has.
    pub fn pass(&mut self, spine: &Spine<N>) -> Result<PassSide<N>, Fault>
        ensures pass { IfOk result (λ pass. pass ≡ new_pass self.old.given) }
        ensures given { IfOk result (λ _. (self.old.given < MOST_PASSES) × (self.new ≡ record self.old { given = self.old.given + 1 })) }
        ensures none { IfErr result (λ fault. (fault ≡ Fault.NoSeat) × (self.old.given ≡ MOST_PASSES) × (self.new ≡ self.old)) }
    {
        spine.pass(&mut self.side).ok_or(Fault::NoSeat)
    }

    /// How many passes were given out.
    pub fn given(&self) -> u64
        ensures { result ≡ self.now.given }
    {
        self.side.given()
    }

    /// A pass knows all that is committed then, and the core learns how many are durable. Answers how many are committed.
    pub fn meet(&mut self, spine: &Spine<N>, seat: &mut PassSide<N>) -> u64
        ensures count { result ≡ count N.name.start self.new.committed }
        ensures core { self.new ≡ record self.old { trimmed = self.new.trimmed } }
        ensures trimmed { (self.old.trimmed ≤ self.new.trimmed) × (count N.name.start seat.old.seen ≤ self.new.trimmed) }
        ensures pass { seat.new ≡ record seat.old { known = self.new.committed } }
        ensures begins { IsPrefix seat.old.known self.new.committed }
    {
        let durable = spine.trim(&mut self.side, seat);
        self.core.learn_durable(durable);
        spine.meet_core(&mut self.side, seat);
        self.count()
    }

    /// Whether an invariant of this name is registered.
    pub fn has(&self, name: &Name) -> bool
        ensures { result ≡ has_name (state_after_history N.opening self.now.committed).names name.now }
    {
        self.core.has(name)
    }

    /// The present value of a variable.
    pub fn peek(&self, var: u16) -> i64
        requires { var < length N.opening.values }
        ensures value { slice_get (state_after_history N.opening self.now.committed).values var ≡ Some result }
        ensures sound { IsSoundState N.program (state_after_history N.opening self.now.committed) }
    {
        self.core.peek(var)
    }

    /// Whether an invariant holds on these values, which a transaction sees at its point, by what the program's names mean.
    pub fn probe(&self, probe: &Probe) -> bool
        requires named { has_name N.program.names probe.now.name ≡ true }
        requires filled { length probe.now.values ≡ length (N.program.tests.footprint probe.now.name) }
        ensures { result ≡ N.program.tests.test probe.now.name probe.now.values }
    {
        self.core.probe(probe)
    }

    /// Pushes the present values of variables, in their order. Refused by `Memory`.
    pub fn peek_all(&self, vars: &[u16], values: &mut Vec<i64>) -> Result<(), Fault>
        requires { All (λ var. var < length N.opening.values) vars.now }
        ensures values { OnOk result (map (λ n. Some n) values.new.items ≡ map (λ n. Some n) values.old.items ++ map (λ var. slice_get (state_after_history N.opening self.now.committed).values var) vars.now) }
        ensures refused { IfErr result (λ fault. fault ≡ Fault.Memory) }
    {
        for var in vars {
            values.push(self.peek(*var))?;
        }
        Ok(())
    }

    /// Takes the oldest effects that wait into a batch, as long as any other would still fit, and the journal beside
    /// the core aims at them. The core learns how many are durable.
    pub fn take(&mut self, spine: &Spine<N>, journal: &mut JournalSide<N>, batch: &mut Batch)
        ensures core { self.new ≡ record self.old { trimmed = count N.name.start journal.old.durable } }
        ensures durable { journal.new.durable ≡ journal.old.durable }
        ensures goes_on { BatchGoesOn N.name.start N.opening journal.old.durable batch.new journal.new.aimed }
        ensures oldest { TakesOldest self.old.committed journal.old.durable batch.new journal.new.aimed }
    {
        let durable = spine.trim_beside(&mut self.side, journal);
        self.core.learn_durable(durable);
        self.core.take(durable, batch);
        spine.aim(&mut self.side, journal, durable + batch.len() as u64);
    }

    /// Learns how many are durable from the journal beside it.
    pub fn learn(&mut self, spine: &Spine<N>, journal: &mut JournalSide<N>)
        ensures core { self.new ≡ record self.old { trimmed = count N.name.start journal.old.durable } }
        ensures journal { journal.new ≡ journal.old }
    {
        let known = spine.trim_beside(&mut self.side, journal);
        self.core.learn_durable(known);
    }

    /// How many transactions are committed.
    fn count(&self) -> u64
        ensures { result ≡ count N.name.start self.now.committed }
    {
        self.core.count()
    }

    /// How many of them are known durable.
    fn durable(&self) -> u64
        ensures { result ≡ self.now.trimmed }
    {
        self.core.durable()
    }

    /// Whether some of them are not known durable.
    pub fn has_waiting(&self) -> bool
        ensures { IsTrue result ↔ (self.now.trimmed < count N.name.start self.now.committed) }
    {
        self.durable() < self.count()
    }

    /// Whether as many are not known durable as a batch has records at most.
    pub fn has_batch(&self) -> bool
        ensures { IsTrue result ↔ (self.now.trimmed + MAX_RECORDS ≤ count N.name.start self.now.committed) }
    {
        self.count().saturating_sub(self.durable()) >= MAX_RECORDS as u64
    }

    /// Whether it was shut.
    pub fn is_shut(&self) -> bool
        ensures { result ≡ self.now.is_shut }
    {
        self.core.is_shut()
    }

    /// Whether more than so many are committed, or it was shut: what a transaction waits for that retried. The try is counted.
    pub fn has_more(&mut self, at: u64) -> bool
        ensures more { IsTrue result ↔ HasMoreOrShut N.name.start at self.new }
        ensures same { self.new ≡ self.old }
    {
        self.tries = self.tries.wrapping_add(1);
        at < self.count() || self.is_shut()
    }

    /// Whether more than so many are known durable, or it was shut and no flush is to come: what a call waits for that awaits a flush.
    /// The try is counted.
    pub fn has_flushed(&mut self, number: u64) -> bool
        ensures more { IsTrue result ↔ HasFlushedOrEnded number self.new }
        ensures same { self.new ≡ self.old }
    {
        self.tries = self.tries.wrapping_add(1);
        number < self.durable() || self.is_shut() && !self.is_draining
    }

    /// Whether fewer wait to be durable than may, or it was shut: what a transaction waits for that found no room. The try is counted.
    pub fn has_room(&mut self) -> bool
        ensures room { IsTrue result ↔ HasRoomOrShut N.name.start self.new }
        ensures same { self.new ≡ self.old }
    {
        self.tries = self.tries.wrapping_add(1);
        self.count().saturating_sub(self.durable()) < MAX_WAITING as u64 || self.is_shut()
    }

    /// Whether some are not known durable, or it was shut: what a flusher waits for. The try is counted.
    pub fn has_work(&mut self) -> bool
        ensures more { IsTrue result ↔ HasWorkOrShut N.name.start self.new }
        ensures same { self.new ≡ self.old }
    {
        self.tries = self.tries.wrapping_add(1);
        self.has_waiting() || self.is_shut()
    }

    /// The pass of this number sleeps until a commit may have written a variable that it has read.
    pub fn sleep(&mut self, number: u64, reads: &Reads)
        ensures { self.new ≡ self.old }
    {
        self.sleepers.sleep(number, reads);
    }

    /// The passes that sleep and have read a variable that the effect writes, by number: the bit of each. They sleep no more.
    pub fn wake(&mut self, effect: &Effect) -> u32
        ensures { self.new ≡ self.old }
    {
        self.sleepers.wake(effect)
    }

    /// A flusher sleeps until something is committed.
    pub fn rest(&mut self)
        ensures { self.new ≡ self.old }
    {
        self.is_flusher_asleep = true;
    }

    /// Whether a flusher sleeps. Whoever asks wakes each, so none sleeps any more.
    pub fn rouse(&mut self) -> bool
        ensures { self.new ≡ self.old }
    {
        let is_asleep = self.is_flusher_asleep;
        self.is_flusher_asleep = false;
        is_asleep
    }

    /// How often whoever waits has tried what it waits for.
    pub fn tries(&self) -> u64 {
        self.tries
    }

    /// Later attempts are refused as `Closed`, and no flush is awaited any more.
    pub fn shut(&mut self)
        ensures { self.new ≡ record self.old { is_shut = true; is_draining = false } }
    {
        self.core.shut();
        self.is_draining = false;
    }

    /// Later attempts are refused as `Closed`. What waits is to be flushed, and is awaited until `shut`. Where it was shut before, that
    /// ended the waits, and they do not begin again.
    pub fn drain(&mut self)
        ensures open { self.old.is_shut ≡ false → self.new ≡ record self.old { is_shut = true; is_draining = true } }
        ensures shut { self.old.is_shut ≡ true → self.new ≡ self.old }
    {
        if self.is_shut() {
            return;
        }
        self.shut();
        self.is_draining = true;
    }

    /// The device has failed, so nothing is settled or flushed any more. The first failure is kept.
    pub fn fail(&mut self, failure: Failure)
        ensures { self.new ≡ record self.old { is_shut = true; is_draining = false; failure = first_failure self.old.failure failure } }
    {
        self.shut();
        if matches!(self.failure, Failure::None) {
            self.failure = failure;
        }
    }

    /// How the device failed first, if it did.
    pub fn failure(&self) -> Failure
        ensures { result ≡ self.now.failure }
    {
        self.failure
    }
}

// Enters into the history what was decided of an attempt for a pass. The pass knows all that is committed then.
fn enter<N: StoreNaming>(
    spine: &Spine<N>,
    side: &mut CoreSide<N>,
    pass: &mut PassSide<N>,
    decision: &Result<Decision, Fault>,
    attempt: &Attempt,
)
    requires begins { IsPrefix pass.old.known side.old.committed }
    requires room { count N.name.start side.old.committed + length (taken_by decision.now attempt.now) < 2 ^ 64 }
    ensures side { side.new ≡ record side.old { committed = side.old.committed ++ marked pass.old.mark (taken_by decision.now attempt.now) } }
    ensures pass { pass.new ≡ record pass.old { known = side.new.committed; own = pass.old.own ++ numbered (count N.name.start side.old.committed) (taken_by decision.now attempt.now) } }
{
    if commits(decision) {
        spine.accept(side, pass, &attempt.effect);
    } else {
        spine.meet_core(side, pass);
    }
}

// Whether a decision commits the effect of its attempt.
fn commits(decision: &Result<Decision, Fault>) -> bool
    ensures { (attempt : AttemptOf) → MatchBool result (taken_by decision.now attempt ≡ attempt.effect ∷ []) (taken_by decision.now attempt ≡ []) }
{
    match decision {
        Ok(Decision::Committed(_)) => true,
        Ok(Decision::Seen(_)) => false,
        Ok(Decision::Retry(_)) => false,
        Ok(Decision::Aborted(_)) => false,
        Ok(Decision::Refused(_)) => false,
        Err(_) => false,
    }
}

/// The whole answer to an attempt, with its registers, once its decision was made by `CoreSeat::decide`. It needs no lock, so the
/// registers can be copied after the core's was let go.
pub fn with_registers(
    decision: Result<Decision, Fault>,
    attempt: &Attempt,
) -> Result<Settled, Fault>
    ensures { result ≡ answer_of decision attempt.now.registers }
{
    Ok(decision?.settled(&attempt.registers))
}
