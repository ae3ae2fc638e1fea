//! Settles transactions in a front, each call once more where it is refused.
ghost use Rattle.std.specs.Prelude.{◌≡◌, length};
ghost use Rattle.tmem_tree.specs.Plans.{FitsSteps, FitsVariables, FitsNames, FitsSignatures};

use crate::refusals::printing::{say_fault, say_line, say_name, say_number};
use crate::refusals::tasks::{TASKS, Task};
use std::alloc::Global;
use std::rt::Clock;
use std::sync::Wait;
use std::time::Duration;
use tmem_builtins::BuiltinSteps;
use tmem_core::Settled;
use tmem_disk::SimDisk;
use tmem_fault::Fault;
use tmem_front::{Front, Pass, StoreNaming};
use tmem_invariants::Invariants;
use tmem_tree::{Plan, StoredSteps};

/// The front of the store that the calls are made on.
pub(crate) type StoreFront<N, T> = Front<SimDisk, N, T, BuiltinSteps>;

/// A call that makes an attempt, or one with its settle.
#[derive(Clone, Copy, Debug)]
enum Call {
    Attempt,
    TryAtomically,
    Atomically,
    AtomicallyWithin,
}

/// Those that wait for nothing where a transaction retries.
const AT_ONCE: &[Call] = &[Call::Attempt, Call::TryAtomically];

/// These, and those that wait.
const ALL: &[Call] = &[
    Call::Attempt,
    Call::TryAtomically,
    Call::Atomically,
    Call::AtomicallyWithin,
];

/// Prints what was opened, settles each transaction by each call that ends, reads all values, makes durable what was committed, and shuts
/// the front.
pub(crate) fn settle_all<N: StoreNaming, T: Invariants + Drop, R: Clock + Print + Wait>(
    rt: &R,
    alloc: Global,
    front: &StoreFront<N, T>,
) -> Result<(), Fault>
    requires { length N.opening.values ≡ 4 }
{
    let mut looker = front.pass(rt)?;
    say_number(rt, "opened", front.look(&mut looker));
    say_state(rt, front, &mut looker);
    for task in TASKS {
        for call in calls_of(*task) {
            settle_task(rt, alloc, front, &mut looker, *call, *task)?;
        }
    }
    read_values(rt, front, &mut looker)?;
    end(rt, front, &mut looker)
}

// The calls that a transaction is settled by. For one that retries they wait for nothing.
fn calls_of(task: Task) -> &'static [Call] {
    match task {
        Task::Retries => AT_ONCE,
        _ => ALL,
    }
}

// Plans a transaction, and settles it by a pass that has no memory yet; and once more where that is refused memory.
fn settle_task<N: StoreNaming, T: Invariants + Drop, R: Clock + Print + Wait>(
    rt: &R,
    alloc: Global,
    front: &StoreFront<N, T>,
    looker: &mut Pass<N>,
    call: Call,
    task: Task,
) -> Result<(), Fault>
    requires { length N.opening.values ≡ 4 }
{
    let tx = task.tx(alloc)?;
    let _ = println!(rt; "{task:?}");
    let plan = front.plan(tx)?;
    let mut pass = front.pass(rt)?;
    let _ = println!(rt; "by {call:?}");
    if settle_and_say(rt, front, looker, &mut pass, &plan, call) {
        settle_and_say(rt, front, looker, &mut pass, &plan, call);
    }
    Ok(())
}

// Settles a plan, and prints how that ended and the state. Answers whether memory was refused.
fn settle_and_say<N: StoreNaming, T: Invariants + Drop, R: Clock + Print + Wait>(
    rt: &R,
    front: &StoreFront<N, T>,
    looker: &mut Pass<N>,
    pass: &mut Pass<N>,
    plan: &Plan,
    call: Call,
) -> bool
    requires vars { length N.opening.values ≡ 4 }
    requires steps { FitsSteps (⟦<BuiltinSteps as StoredSteps>⟧.arities front.now.steps) plan.now.tree }
    requires variables { FitsVariables front.now.vars plan.now }
    requires names { FitsNames N.program.names plan.now.tree }
    requires signatures { FitsSignatures N.program.tests plan.now }
{
    let settled = settled(rt, front, pass, plan, call);
    say(rt, &settled);
    say_state(rt, front, looker);
    matches!(settled, Err(Fault::Memory))
}

// What a plan is settled with by a call.
fn settled<N: StoreNaming, T: Invariants + Drop, R: Clock + Wait>(
    rt: &R,
    front: &StoreFront<N, T>,
    pass: &mut Pass<N>,
    plan: &Plan,
    call: Call,
) -> Result<Settled, Fault>
    requires steps { FitsSteps (⟦<BuiltinSteps as StoredSteps>⟧.arities front.now.steps) plan.now.tree }
    requires variables { FitsVariables front.now.vars plan.now }
    requires names { FitsNames N.program.names plan.now.tree }
    requires signatures { FitsSignatures N.program.tests plan.now }
{
    match call {
        Call::Attempt => match front.attempt(rt, plan) {
            Ok(attempt) => front.settle(rt, pass, &attempt),
            Err(fault) => Err(fault),
        },
        Call::TryAtomically => front.try_atomically(rt, pass, plan),
        Call::Atomically => front.atomically(rt, pass, plan),
        Call::AtomicallyWithin => {
            front.atomically_within(rt, pass, plan, Duration::from_secs(60))
        }
    }
}

// Prints how a call ended.
fn say<R: Print>(rt: &R, settled: &Result<Settled, Fault>) {
    match settled {
        Ok(Settled::Committed { number, .. }) => say_number(rt, "committed", *number),
        Ok(Settled::Seen { at, .. }) => say_number(rt, "seen", *at),
        Ok(Settled::Retry) => say_line(rt, "retry"),
        Ok(Settled::Aborted(code)) => say_number(rt, "aborted", u64::from(*code)),
        Ok(Settled::Refused(name)) => say_name(rt, "refused", name),
        Err(fault) => say_fault(rt, *fault),
    }
}

// Prints how many transactions are committed and durable, and the values.
fn say_state<N: StoreNaming, T: Invariants + Drop, R: Print + Wait>(
    rt: &R,
    front: &StoreFront<N, T>,
    looker: &mut Pass<N>,
)
    requires { length N.opening.values ≡ 4 }
{
    let count = front.count(rt, looker);
    let durable = front.look(looker);
    let a = front.peek(rt, 0);
    let b = front.peek(rt, 1);
    let c = front.peek(rt, 2);
    let d = front.peek(rt, 3);
    let _ = println!(rt; "state count={count} durable={durable} values={a},{b},{c},{d}");
}

// Reads all values at one moment, once more where that is refused.
fn read_values<N: StoreNaming, T: Invariants + Drop, R: Print + Wait>(
    rt: &R,
    front: &StoreFront<N, T>,
    looker: &mut Pass<N>,
) -> Result<(), Fault>
    requires { length N.opening.values ≡ 4 }
{
    say_line(rt, "values");
    let values = match front.values(rt, looker, &[0, 1, 2, 3]) {
        Ok(values) => values,
        Err(fault) => {
            say_fault(rt, fault);
            say_state(rt, front, looker);
            front.values(rt, looker, &[0, 1, 2, 3])?
        }
    };
    say_values(rt, &values);
    Ok(())
}

fn say_values<R: Print>(rt: &R, values: &[i64]) {
    if let [a, b, c, d] = values {
        let _ = println!(rt; "values {a},{b},{c},{d}");
    }
}

// Calls that ask for no memory, to the end: once the front is shut, a wait is refused.
fn end<N: StoreNaming, T: Invariants + Drop, R: Clock + Print + Wait>(
    rt: &R,
    front: &StoreFront<N, T>,
    looker: &mut Pass<N>,
) -> Result<(), Fault>
    requires { length N.opening.values ≡ 4 }
{
    say_number(rt, "durable", front.flush_once(rt)?);
    front.checkpoint(rt)?;
    say_number(rt, "checkpoints", front.log(rt).checkpoints);
    say_number(rt, "durable", front.flush_with_room(rt)?);
    let _pass = front.pass(rt)?;
    say_line(rt, "pass");
    front.shut(rt);
    say_line(rt, "shut");
    if let Err(fault) = front.await_durable_within(rt, looker, u64::MAX, Duration::ZERO) {
        say_fault(rt, fault);
    }
    say_state(rt, front, looker);
    Ok(())
}
