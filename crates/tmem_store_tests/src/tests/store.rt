//! The calls of a front by one caller, with what it has in hand.
ghost use Rattle.std.specs.Prelude.{◌≡◌, ◌<◌, length};
ghost use Rattle.std.proofs.Props.{props};
ghost use Rattle.tmem_tentative.specs.CursorFacts.{IsEndingFor-prop};
ghost use Rattle.tmem_tentative.specs.Fits.{IsForVariables, IsForNames};
ghost use Rattle.tmem_tree.specs.Plans.{FitsSteps, FitsVariables, FitsNames, FitsSignatures};

use super::fronts::Asked;
use super::moves::{Answer, Move};
use super::no_closures::always;
use super::signals::{MOST_TURNS, Signals};
use super::stage::Stage;
use std::marker::PhantomData;
use std::mem;
use std::rt::Clock;
use std::sync::Wait;
use std::time::Duration;
use tmem_disk::Disk;
use tmem_fault::{Fault, Name};
use tmem_front::{Front, LogCounts, Pace, Pass, StoreNaming};
use tmem_invariants::Invariants;
use tmem_tentative::Attempt;
use tmem_tree::{Plan, Settled, StoredSteps, Tx};

/// A call that settles a transaction, or an attempt with its settle.
#[derive(Clone, Copy, Debug)]
pub(super) enum Call {
    AttemptAndSettle,
    TryAtomically,
    Atomically,
    AtomicallyWithin,
    AtomicallyWithRoom,
    CommitDurable,
}

/// A caller of a front that settles transactions. It says nothing of what the calls promise, so that what stands above it carries none
/// of it; nor do the other two traits.
pub(super) trait Settles {
    /// Takes a new pass in place of the one in hand, which is dropped. Where it is refused, that stays.
    fn take_pass<R: Wait>(&mut self, rt: &R) -> Result<(), Fault>;

    /// Settles a transaction by a call, for no longer than a time where that has a limit.
    fn settle_by<R: Clock + Wait>(
        &mut self,
        rt: &R,
        tx: Tx,
        call: Call,
        limit: Duration,
    ) -> Result<Settled, Fault>;
}

/// One that plays a scene.
pub(super) trait Calls: Settles {
    /// Whether it has a pass in hand.
    fn has_pass(&self) -> bool;

    /// Keeps an attempt at a transaction.
    fn keep_attempt<R: Wait>(&mut self, rt: &R, tx: Tx) -> Result<(), Fault>;

    /// Values at one moment.
    fn values<R: Wait>(&mut self, rt: &R, vars: &[u16]) -> Result<Vec<i64>, Fault>;

    /// Whether a new pass is given out, which is dropped at once.
    fn gives_pass<R: Wait>(&self, rt: &R) -> bool;

    /// Takes a pass of the pool in place of the one in hand, for no longer than a time.
    fn acquire_pass_within<R: Clock + Wait>(&mut self, rt: &R, limit: Duration) -> Answer;

    /// Plays a move that is a call of the front with the hands.
    fn call_by_hand<R: Wait>(&mut self, rt: &R, step: Move) -> Answer;

    /// Plays one that is a call by the pass in hand.
    fn call_by_pass<R: Clock + Wait>(&mut self, stage: &Stage<R>, step: Move) -> Answer;
}

/// One that asks.
pub(super) trait Asks: Settles {
    /// Why an invariant refuses a transaction, or an attempt at one.
    fn why_refused<R: Wait>(
        &mut self,
        rt: &R,
        tx: Tx,
        asked: Asked,
        name: &Name,
    ) -> Result<Option<Vec<(u16, i64)>>, Fault>;
}

/// One caller of a front.
#[derive(Drop)]
pub(super) struct Caller<'a, D: Disk, N: StoreNaming, T: Invariants, S: StoredSteps> {
    front: &'a Front<D, N, T, S>,
    hands: Hands<N>,
}

/// What it has in hand.
struct Hands<N: StoreNaming> {
    pass: Option<Pass<N>>,
    other: Option<Pass<N>>,
    kept: Option<Kept<N>>,
}

// By hand, so that a function that drops them makes one call.
impl<N: StoreNaming> Drop for Hands<N> {
    fn drop(self) {
        let Hands {
            pass: _pass,
            other: _other,
            kept: _kept,
        } = self;
    }
}

/// An attempt at a plan of the front.
#[derive(Drop)]
struct Kept<N: StoreNaming> {
    attempt: Attempt,
    of: PhantomData<N>,

    ghost variables: { IsForVariables (length N.opening.values) attempt },
    ghost names: { IsForNames N.program.names attempt } by { Prim.hlevel (props, IsEndingFor-prop) },
}

/// A pace of so many turns.
#[derive(Drop)]
struct Turns<'a> {
    left: u64,
    signals: &'a Signals,
}

impl Pace for Turns<'_> {
    fn next(&mut self) -> bool {
        self.signals.meet_turn();
        let is_one_left = self.left > 0;
        self.left = self.left.saturating_sub(1);
        is_one_left
    }

    fn next_when_full(&mut self) -> bool {
        self.signals.count_full_turn();
        self.next()
    }
}

/// A limit of so many milliseconds, or the longest one.
pub(super) fn limit_of(millis: u64) -> Duration {
    if millis == u64::MAX {
        Duration::MAX
    } else {
        Duration::from_millis(millis)
    }
}

impl<'a, D: Disk + Drop, N: StoreNaming, T: Invariants + Drop, S: StoredSteps + Drop> Caller<
    'a,
    D,
    N,
    T,
    S,
> {
    /// One with empty hands.
    pub(super) fn new(front: &'a Front<D, N, T, S>) -> Caller<'a, D, N, T, S> {
        let hands = Hands {
            pass: None,
            other: None,
            kept: None,
        };
        Caller { front, hands }
    }
}

impl<D: Disk + Drop, N: StoreNaming, T: Invariants + Drop, S: StoredSteps + Drop> Settles
    for Caller<'_, D, N, T, S> {
    fn take_pass<R: Wait>(&mut self, rt: &R) -> Result<(), Fault> {
        self.hands.pass = Some(self.front.pass(rt)?);
        Ok(())
    }

    fn settle_by<R: Clock + Wait>(
        &mut self,
        rt: &R,
        tx: Tx,
        call: Call,
        limit: Duration,
    ) -> Result<Settled, Fault> {
        let plan = self.front.plan(tx)?;
        match &mut self.hands.pass {
            Some(pass) => settled_by(self.front, rt, pass, &plan, call, limit),
            None => Err(Fault::NoSeat),
        }
    }
}

impl<D: Disk + Drop, N: StoreNaming, T: Invariants + Drop, S: StoredSteps + Drop> Calls
    for Caller<'_, D, N, T, S> {
    fn has_pass(&self) -> bool {
        self.hands.pass.is_some()
    }

    fn keep_attempt<R: Wait>(&mut self, rt: &R, tx: Tx) -> Result<(), Fault> {
        let plan = self.front.plan(tx)?;
        let attempt = self.front.attempt(rt, &plan)?;
        self.hands.kept = Some(Kept {
            attempt,
            of: PhantomData,
        });
        Ok(())
    }

    fn values<R: Wait>(&mut self, rt: &R, vars: &[u16]) -> Result<Vec<i64>, Fault> {
        match &mut self.hands.pass {
            Some(pass) => self.front.values(rt, pass, vars),
            None => Err(Fault::NoSeat),
        }
    }

    fn gives_pass<R: Wait>(&self, rt: &R) -> bool {
        self.front.pass(rt).is_ok()
    }

    fn acquire_pass_within<R: Clock + Wait>(&mut self, rt: &R, limit: Duration) -> Answer {
        match self.front.acquire_pass_within(rt, limit) {
            Ok(None) => Answer::Late,
            Ok(pass) => {
                self.hands.pass = pass;
                Answer::Done
            }
            Err(fault) => Answer::refused(fault),
        }
    }

    fn call_by_hand<R: Wait>(&mut self, rt: &R, step: Move) -> Answer {
        match step {
            Move::Settle => settle_kept(self.front, rt, &mut self.hands),
            Move::Acquire => match self.front.acquire_pass(rt) {
                Ok(pass) => {
                    self.hands.pass = Some(pass);
                    Answer::Done
                }
                Err(fault) => Answer::refused(fault),
            },
            Move::ReleasePass => match self.hands.pass.take() {
                Some(pass) => Answer::done(self.front.release_pass(rt, pass)),
                None => Answer::Nothing,
            },
            Move::OtherPass => Answer::done(other_pass(self.front, rt, &mut self.hands)),
            _ => Answer::Nothing,
        }
    }

    fn call_by_pass<R: Clock + Wait>(&mut self, stage: &Stage<R>, step: Move) -> Answer {
        match &mut self.hands.pass {
            Some(pass) => call_by(self.front, stage, pass, step),
            None => Answer::Nothing,
        }
    }
}

impl<D: Disk + Drop, N: StoreNaming, T: Invariants + Drop, S: StoredSteps + Drop> Asks
    for Caller<'_, D, N, T, S> {
    fn why_refused<R: Wait>(
        &mut self,
        rt: &R,
        tx: Tx,
        asked: Asked,
        name: &Name,
    ) -> Result<Option<Vec<(u16, i64)>>, Fault> {
        let plan = self.front.plan(tx)?;
        let Some(pass) = &mut self.hands.pass else {
            return Err(Fault::NoSeat);
        };
        match asked {
            Asked::ByAttempt(_) => {
                let attempt = self.front.attempt(rt, &plan)?;
                self.front.why_attempt_refused(rt, pass, &attempt, name)
            }
            _ => self.front.why_refused(rt, pass, &plan, name),
        }
    }
}

// Settles the attempt that is kept.
fn settle_kept<
    D: Disk + Drop,
    N: StoreNaming,
    T: Invariants + Drop,
    S: StoredSteps + Drop,
    R: Wait,
>(front: &Front<D, N, T, S>, rt: &R, hands: &mut Hands<N>) -> Answer {
    match (&mut hands.pass, &hands.kept) {
        (Some(pass), Some(kept)) => Answer::to(front.settle(rt, pass, &kept.attempt)),
        _ => Answer::Nothing,
    }
}

fn other_pass<D: Disk + Drop, N: StoreNaming, T: Invariants + Drop, S: StoredSteps + Drop, R: Wait>(
    front: &Front<D, N, T, S>,
    rt: &R,
    hands: &mut Hands<N>,
) -> Result<(), Fault> {
    if hands.other.is_none() {
        hands.other = Some(front.pass(rt)?);
    }
    mem::swap(&mut hands.pass, &mut hands.other);
    Ok(())
}

// Settles a plan by a call.
fn settled_by<
    D: Disk + Drop,
    N: StoreNaming,
    T: Invariants + Drop,
    S: StoredSteps + Drop,
    R: Clock + Wait,
>(
    front: &Front<D, N, T, S>,
    rt: &R,
    pass: &mut Pass<N>,
    plan: &Plan,
    call: Call,
    limit: Duration,
) -> Result<Settled, Fault>
    requires steps { FitsSteps (S.arities front.now.steps) plan.now.tree }
    requires variables { FitsVariables front.now.vars plan.now }
    requires names { FitsNames N.program.names plan.now.tree }
    requires signatures { FitsSignatures N.program.tests plan.now }
{
    match call {
        Call::AttemptAndSettle => attempt_and_settle(front, rt, pass, plan),
        Call::TryAtomically => front.try_atomically(rt, pass, plan),
        Call::Atomically => front.atomically(rt, pass, plan),
        Call::AtomicallyWithin => front.atomically_within(rt, pass, plan, limit),
        Call::AtomicallyWithRoom => front.atomically_with_room(rt, pass, plan),
        Call::CommitDurable => front.commit_durable(rt, pass, plan),
    }
}

fn attempt_and_settle<
    D: Disk + Drop,
    N: StoreNaming,
    T: Invariants + Drop,
    S: StoredSteps + Drop,
    R: Wait,
>(front: &Front<D, N, T, S>, rt: &R, pass: &mut Pass<N>, plan: &Plan) -> Result<Settled, Fault>
    requires steps { FitsSteps (S.arities front.now.steps) plan.now.tree }
    requires variables { FitsVariables front.now.vars plan.now }
    requires names { FitsNames N.program.names plan.now.tree }
    requires signatures { FitsSignatures N.program.tests plan.now }
{
    match front.attempt(rt, plan) {
        Ok(attempt) => front.settle(rt, pass, &attempt),
        Err(fault) => Err(fault),
    }
}

// Plays a move that is one call by a pass.
fn call_by<
    D: Disk + Drop,
    N: StoreNaming,
    T: Invariants + Drop,
    S: StoredSteps + Drop,
    R: Clock + Wait,
>(front: &Front<D, N, T, S>, stage: &Stage<R>, pass: &mut Pass<N>, step: Move) -> Answer {
    match step {
        Move::Await(number) => Answer::done(front.await_durable(stage.rt, pass, number)),
        Move::AwaitWithin(number, millis) => {
            let rt = stage.clock();
            Answer::awaited(front.await_durable_within(&rt, pass, number, limit_of(millis)))
        }
        Move::FlushAll => Answer::number(front.flush_all(stage.rt, pass)),
        Move::Look => Answer::Number(front.look(pass)),
        Move::Seen => Answer::Number(pass.seen()),
        // only a number that the pass saw is vouched for
        Move::Vouch(number) => {
            if number < pass.seen() {
                Answer::Number(front.vouch(stage.rt, pass, number))
            } else {
                Answer::Nothing
            }
        }
        Move::Count => Answer::Number(front.count(stage.rt, pass)),
        Move::HasInvariant => Answer::Holds(front.has(stage.rt, pass, &always())),
        other => call_alone(front, stage, other),
    }
}

// Plays a move that is one call and needs no pass.
fn call_alone<
    D: Disk + Drop,
    N: StoreNaming,
    T: Invariants + Drop,
    S: StoredSteps + Drop,
    R: Clock + Wait,
>(front: &Front<D, N, T, S>, stage: &Stage<R>, step: Move) -> Answer {
    match step {
        Move::Flush => Answer::number(front.flush_once(stage.rt)),
        Move::FlushWithRoom => Answer::number(front.flush_with_room(stage.rt)),
        Move::RunFlusher(left) => {
            let signals = stage.signals;
            Answer::done(front.run_flusher(stage.rt, &mut Turns { left, signals }))
        }
        Move::Checkpoint => Answer::done(front.checkpoint(stage.rt)),
        Move::Shut => {
            front.shut(stage.rt);
            Answer::Done
        }
        Move::Close => Answer::done(front.close(stage.rt)),
        other => call_to_ask(front, stage, other),
    }
}

// Plays one that asks what there is.
fn call_to_ask<
    D: Disk + Drop,
    N: StoreNaming,
    T: Invariants + Drop,
    S: StoredSteps + Drop,
    R: Clock + Wait,
>(front: &Front<D, N, T, S>, stage: &Stage<R>, step: Move) -> Answer {
    match step {
        Move::Peek(var) => peek(front, stage, var),
        Move::LogIs(want) => Answer::Holds(counts_of(front.log(stage.rt)) == want),
        Move::FaultOf => Answer::fault(front.fault(stage.rt)),
        Move::TriesAtMost(most) => Answer::Holds(front.tries(stage.rt) <= most),
        Move::AwaitTries(_) | Move::AwaitValue(_, _) => await_coming(front, stage, step),
        other => stage.answer(other),
    }
}

// Waits for what a move says is to come, for ten seconds at the most.
fn await_coming<
    D: Disk + Drop,
    N: StoreNaming,
    T: Invariants + Drop,
    S: StoredSteps + Drop,
    R: Clock + Wait,
>(front: &Front<D, N, T, S>, stage: &Stage<R>, step: Move) -> Answer {
    for _ in 0..MOST_TURNS {
        let has_come = match step {
            Move::AwaitTries(least) => front.tries(stage.rt) >= least,
            Move::AwaitValue(var, value) => peek(front, stage, var) == Answer::Value(value),
            _ => true,
        };
        if has_come {
            return Answer::Done;
        }
        stage.answer(Move::Sleep(1));
    }
    Answer::Late
}

// The value of a variable, if a plan may read it.
#[tactic(auto, using(crate::proofs::Reading::is_there))]
fn peek<D: Disk + Drop, N: StoreNaming, T: Invariants + Drop, S: StoredSteps + Drop, R: Wait>(
    front: &Front<D, N, T, S>,
    stage: &Stage<R>,
    var: u16,
) -> Answer {
    match front.plan(Tx::Read { var, reg: 0 }) {
        Ok(_plan) => Answer::Value(front.peek(stage.rt, var)),
        Err(fault) => Answer::refused(fault),
    }
}

// How many flushes and checkpoints were made, and how many slots are free.
fn counts_of(log: LogCounts) -> [u64; 3] {
    [log.flushes, log.checkpoints, u64::from(log.free_slots)]
}
