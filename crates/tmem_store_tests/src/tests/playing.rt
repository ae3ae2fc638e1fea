//! How each move is played by a caller of a front.
use super::moves::{Answer, Move, Refusal, Task};
use super::stage::Stage;
use super::store::{Call, Calls, Settles, limit_of};
use std::rt::Clock;
use std::sync::Wait;
use tmem_fault::Fault;

/// How often an addition is made at the most.
const MOST_ATTEMPTS: u64 = 1_000_000;

/// More milliseconds than a scene lasts.
const MINUTE: u64 = 60_000;

/// Plays a move.
pub(super) fn answer<C: Calls, R: Clock + Wait>(
    stage: &Stage<R>,
    caller: &mut C,
    step: Move,
) -> Answer {
    match step {
        Move::Attempt(task) => attempt(stage, caller, task),
        Move::NewPass => Answer::done(caller.take_pass(stage.rt)),
        Move::AcquireWithin(millis) => {
            caller.acquire_pass_within(&stage.clock(), limit_of(millis))
        }
        Move::Settle => caller.call_by_hand(stage.rt, step),
        Move::Acquire => caller.call_by_hand(stage.rt, step),
        Move::ReleasePass => caller.call_by_hand(stage.rt, step),
        Move::OtherPass => caller.call_by_hand(stage.rt, step),
        other => answer_by(stage, caller, other),
    }
}

// Plays a move by the pass in hand.
fn answer_by<C: Calls, R: Clock + Wait>(stage: &Stage<R>, caller: &mut C, step: Move) -> Answer {
    if !caller.has_pass() {
        return Answer::Nothing;
    }
    match step {
        Move::Commit(task) => settle(stage, caller, task, Call::Atomically, 0),
        Move::TryCommit(task) => settle(stage, caller, task, Call::TryAtomically, 0),
        Move::CommitWithin(task, millis) => {
            settle(stage, caller, task, Call::AtomicallyWithin, millis)
        }
        Move::CommitDurable(task) => settle(stage, caller, task, Call::CommitDurable, 0),
        other => answer_often(stage, caller, other),
    }
}

// Plays a move that commits so often.
fn answer_often<C: Calls, R: Clock + Wait>(stage: &Stage<R>, caller: &mut C, step: Move) -> Answer {
    match step {
        Move::Fill(times) => commit_in_order(stage, caller, Task::Write(0, 1), times),
        Move::FillBy(task, times) => commit_in_order(stage, caller, task, times),
        Move::Add(times) => add_often(stage, caller, times),
        Move::AddWithRoom(times) => add_by_call(stage, caller, Call::AtomicallyWithRoom, times),
        Move::AddDurably(times) => add_by_call(stage, caller, Call::CommitDurable, times),
        Move::CommitAndFlush(times) => commit_and_flush(stage, caller, times),
        other => answer_more(stage, caller, other),
    }
}

// Plays a move of any other kind.
fn answer_more<C: Calls, R: Clock + Wait>(stage: &Stage<R>, caller: &mut C, step: Move) -> Answer {
    match step {
        Move::PassOn(var, first, other, times) => {
            pass_on(stage, caller, (var, first, other), times, false)
        }
        Move::PassOnWithin(var, first, other, times) => {
            pass_on(stage, caller, (var, first, other), times, true)
        }
        Move::ValuesAre(vars, want) => values_are(stage, caller, &vars, &want),
        Move::CountValues(most) => Answer::number(count_values(stage, caller, most)),
        Move::NewPasses(times) => new_passes(stage, caller, times),
        other => caller.call_by_pass(stage, other),
    }
}

// Settles a task by a call, for no longer than so many milliseconds where that has a limit.
fn settle<C: Calls, R: Clock + Wait>(
    stage: &Stage<R>,
    caller: &mut C,
    task: Task,
    call: Call,
    millis: u64,
) -> Answer {
    match task.tx(stage.alloc) {
        Ok(tx) => Answer::to(caller.settle_by(&stage.clock(), tx, call, limit_of(millis))),
        Err(_) => Answer::refused(Fault::Memory),
    }
}

// Keeps an attempt at a task.
fn attempt<C: Calls, R: Wait>(stage: &Stage<R>, caller: &mut C, task: Task) -> Answer {
    match task.tx(stage.alloc) {
        Ok(tx) => Answer::done(caller.keep_attempt(stage.rt, tx)),
        Err(_) => Answer::refused(Fault::Memory),
    }
}

// How often a commit has the next number, from 0.
fn commit_in_order<C: Calls, R: Clock + Wait>(
    stage: &Stage<R>,
    caller: &mut C,
    task: Task,
    times: u64,
) -> Answer {
    let mut in_order = 0u64;
    for turn in 0..times {
        if settle(stage, caller, task, Call::TryAtomically, 0) == Answer::Committed(turn) {
            in_order = in_order.saturating_add(1);
        }
    }
    Answer::Number(in_order)
}

// Commits and flushes so often, or until one of these is refused.
fn commit_and_flush<C: Calls, R: Clock + Wait>(
    stage: &Stage<R>,
    caller: &mut C,
    times: u64,
) -> Answer {
    for _ in 0..times {
        let committed = settle(stage, caller, Task::Write(0, 1), Call::Atomically, 0);
        if !matches!(committed, Answer::Committed(_)) {
            return committed;
        }
        let flushed = caller.call_by_pass(stage, Move::FlushWithRoom);
        if !matches!(flushed, Answer::Number(_)) {
            return flushed;
        }
    }
    Answer::Number(times)
}

// How often an addition commits, which is made again after each conflict.
fn add_often<C: Calls, R: Clock + Wait>(stage: &Stage<R>, caller: &mut C, times: u64) -> Answer {
    let mut committed = 0u64;
    for _ in 0..MOST_ATTEMPTS {
        if committed == times {
            break;
        }
        match settle(stage, caller, Task::AddOne, Call::TryAtomically, 0) {
            Answer::Committed(_) => committed = committed.saturating_add(1),
            Answer::Refused(Refusal::Conflict) => {}
            other => return other,
        }
    }
    Answer::Number(committed)
}

// How often an addition commits by a call.
fn add_by_call<C: Calls, R: Clock + Wait>(
    stage: &Stage<R>,
    caller: &mut C,
    call: Call,
    times: u64,
) -> Answer {
    for _ in 0..times {
        match settle(stage, caller, Task::AddOne, call, 0) {
            Answer::Committed(_) => {}
            other => return other,
        }
    }
    Answer::Number(times)
}

// How often an addition commits that waits for one more each time.
fn pass_on<C: Calls, R: Clock + Wait>(
    stage: &Stage<R>,
    caller: &mut C,
    (var, first, other): (u16, i64, u16),
    times: u64,
    is_limited: bool,
) -> Answer {
    let call = if is_limited {
        Call::AtomicallyWithin
    } else {
        Call::AtomicallyWithRoom
    };
    let (mut least, mut passed) = (first, 0u64);
    for _ in 0..MOST_ATTEMPTS {
        if passed == times {
            break;
        }
        let task = Task::AddBehind(var, least, other);
        match settle(stage, caller, task, call, MINUTE) {
            Answer::Committed(_) => {
                least = least.saturating_add(1);
                passed = passed.saturating_add(1);
            }
            Answer::Refused(Refusal::Full) if is_limited => {}
            other => return other,
        }
    }
    Answer::Number(passed)
}

// How many passes are given out, each dropped at once.
fn new_passes<C: Calls, R: Wait>(stage: &Stage<R>, caller: &C, times: u64) -> Answer {
    let mut given = 0u64;
    for _ in 0..times {
        if caller.gives_pass(stage.rt) {
            given = given.saturating_add(1);
        }
    }
    Answer::Number(given)
}

// Whether variables have these values at one moment.
fn values_are<C: Calls, R: Wait>(
    stage: &Stage<R>,
    caller: &mut C,
    vars: &[u16],
    want: &[i64],
) -> Answer {
    match caller.values(stage.rt, vars) {
        Ok(values) => Answer::Holds(values.as_slice() == want),
        Err(fault) => Answer::refused(fault),
    }
}

// How many values are answered of the first so many variables.
fn count_values<C: Calls, R: Wait>(
    stage: &Stage<R>,
    caller: &mut C,
    most: u16,
) -> Result<u64, Fault> {
    let mut vars = Vec::new(stage.alloc);
    for var in 0..most {
        vars.push(var)?;
    }
    let values = caller.values(stage.rt, &vars)?;
    Ok(values.len() as u64)
}
