//! A front by one caller: transactions of each form and at each limit, by each call that settles them.
ghost use Rattle.std.specs.Prelude.{◌≡◌, length};
ghost use Rattle.tmem_builtins.specs.Invariants.{is_not_negative};
ghost use Rattle.tmem_front.specs.Held.{front_found, spine_of, front_steps, front_table};
ghost use Rattle.tmem_store_tests.specs.Programs.{checked_program};

use super::nodes::{Node, or_else, push_all, seq, when};
use super::stage_disk::formatted;
use super::store::{Asks, Call, Caller, Settles};
use std::alloc::{AllocError, Global};
use std::marker::Brand;
use std::process::Abort;
use std::rt::Clock;
use std::sync::Wait;
use std::test::Fail;
use std::time::Duration;
use tmem_builtins::{names, nonneg, stored_steps};
use tmem_disk::Disk;
use tmem_fault::Fault;
use tmem_front::{OpenedFront, StoreNaming};
use tmem_invariants::Invariants;
use tmem_tables::{Invariant, Table};
use tmem_tree::{Settled, StoredSteps, Tx};

const ALL: &[Call] = &[
    Call::AttemptAndSettle,
    Call::TryAtomically,
    Call::Atomically,
    Call::AtomicallyWithin,
    Call::AtomicallyWithRoom,
    Call::CommitDurable,
];

/// Those that await no flush of what they commit.
const NOT_AWAITING: &[Call] = &[
    Call::AttemptAndSettle,
    Call::TryAtomically,
    Call::Atomically,
    Call::AtomicallyWithin,
    Call::AtomicallyWithRoom,
];

/// Those that wait for no room.
const REFUSED_ROOM: &[Call] = &[
    Call::AttemptAndSettle,
    Call::TryAtomically,
    Call::Atomically,
    Call::AtomicallyWithin,
];

#[derive(Clone, Copy)]
enum Task {
    /// Writes a 1 to variable 0.
    WriteOne,
    /// Has each form. It writes a 5 to variable 0, and aborts with 7 where the number is not 0.
    EachForm(i64),
    /// Has 512 nodes, is 32 deep, writes this number to 64 variables, and retires 8 times and then checks 8 times that variable 0 is not
    /// negative.
    Largest(i64),
    /// Reads 500 variables.
    Reads,
    /// Reads 510 variables, and checks that variable 0 is not negative: 512 nodes, and 513 turns.
    ReadsAndChecks,
}

/// How it ends.
#[derive(Clone, Copy, Debug, PartialEq)]
enum Ends {
    /// With the next number, from 0.
    Commits,
    /// Sees what there was before anything was committed, and has no number in any register.
    SeesNothing,
    Aborts(u16),
    Breaks,
    IsFull,
    Otherwise,
}

type Row = (&'static [Call], Task, u32, Ends);

/// By which calls what is settled, how often by each, and how it ends.
const ROWS: &[Row] = &[
    (ALL, Task::EachForm(1), 1, Ends::Aborts(7)),
    (ALL, Task::Largest(-1), 1, Ends::Breaks),
    (ALL, Task::Reads, 1, Ends::SeesNothing),
    (NOT_AWAITING, Task::EachForm(0), 1, Ends::Commits),
    (NOT_AWAITING, Task::Largest(1), 1, Ends::Commits),
    (NOT_AWAITING, Task::ReadsAndChecks, 1, Ends::Commits),
    // no flush is awaited for what does not commit
    (ALL, Task::EachForm(1), 1, Ends::Aborts(7)),
    (ALL, Task::Largest(-1), 1, Ends::Breaks),
    // 256 wait then
    (&[Call::TryAtomically], Task::WriteOne, 241, Ends::Commits),
    (REFUSED_ROOM, Task::Largest(1), 1, Ends::IsFull),
];

/// A question why what makes variable 0 a number is refused.
#[derive(Clone, Copy)]
pub(super) enum Asked {
    /// Of a plan that then checks that it is not negative, and makes it 2.
    ByPlanThatChecks(i64),
    ByPlan(i64),
    ByAttempt(i64),
}

/// What is answered in a store where variable 0 is 1: the value of it that is refused, at a check or at the end, or none.
const ASKED: &[(Asked, Option<i64>)] = &[
    (Asked::ByPlanThatChecks(-7), Some(-7)),
    (Asked::ByPlan(-4), Some(-4)),
    (Asked::ByPlan(1), None),
    (Asked::ByAttempt(-5), Some(-5)),
    (Asked::ByAttempt(1), None),
];

impl Task {
    fn tx(self, alloc: Global) -> Result<Tx, AllocError> {
        match self {
            Task::WriteOne => write_number(alloc, 1),
            Task::EachForm(aborts) => each_form(alloc, aborts),
            Task::Largest(number) => deepened(alloc, largest(alloc, number)?),
            Task::Reads => seq(alloc, &[Node::ReadEach(0, 500, 0)]),
            Task::ReadsAndChecks => reads_and_checks(alloc),
        }
    }
}

impl Asked {
    fn tx(self, alloc: Global) -> Result<Tx, AllocError> {
        match self {
            Asked::ByPlanThatChecks(number) => check_negative(alloc, number),
            Asked::ByPlan(number) => write_number(alloc, number),
            Asked::ByAttempt(number) => write_number(alloc, number),
        }
    }

    fn what(self) -> &'static str {
        match self {
            Asked::ByAttempt(_) => "an attempt",
            _ => "a plan",
        }
    }
}

fn each_form(alloc: Global, aborts: i64) -> Result<Tx, AllocError> {
    let name = names()[0];
    let first = [
        Node::PutNumber(0, 5),
        Node::PutNumber(3, aborts),
        Node::ReadValue(1, 1),
    ];
    let second = [
        Node::CallStep(0, [0, 0], 2),
        Node::RetireName(name),
        Node::CheckName(name),
    ];
    let mut all = Vec::new(alloc);
    push_all(alloc, &mut all, &first)?;
    all.push(or_else(alloc, Tx::Retry, Tx::Write { var: 0, reg: 0 })?)?;
    push_all(alloc, &mut all, &second)?;
    all.push(when(alloc, 3, Tx::Abort { code: 7 }, Tx::Skip)?)?;
    Ok(Tx::Seq(all))
}

/// One of 482 nodes that is 2 deep.
fn largest(alloc: Global, number: i64) -> Result<Tx, AllocError> {
    let mut all = vec![in alloc; Tx::Put { reg: 0, number }]?;
    for at in 0..480 {
        all.push(node_of_largest(at))?;
    }
    Ok(Tx::Seq(all))
}

/// The writes come first, then what retires, then the checks, and 400 that do nothing.
fn node_of_largest(at: u16) -> Tx {
    match at {
        0..=63 => Tx::Write { var: at, reg: 0 },
        64..=71 => Tx::Retire { name: names()[0] },
        72..=79 => Tx::Check { name: names()[0] },
        _ => Tx::Skip,
    }
}

/// The same in 30 more nodes, one in the other.
fn deepened(alloc: Global, mut tx: Tx) -> Result<Tx, AllocError> {
    for _ in 0..30 {
        tx = Tx::Seq(vec![in alloc; tx]?);
    }
    Ok(tx)
}

fn reads_and_checks(alloc: Global) -> Result<Tx, AllocError> {
    seq(
        alloc,
        &[Node::ReadEach(1, 511, 0), Node::CheckName(names()[0])],
    )
}

/// Makes variable 0 this number.
fn write_number(alloc: Global, number: i64) -> Result<Tx, AllocError> {
    seq(alloc, &[Node::PutNumber(0, number), Node::WriteValue(0, 0)])
}

/// The same, checks that it is not negative, and makes it 2.
fn check_negative(alloc: Global, number: i64) -> Result<Tx, AllocError> {
    let nodes = [
        Node::PutNumber(0, number),
        Node::WriteValue(0, 0),
        Node::CheckName(names()[0]),
        Node::PutNumber(0, 2),
        Node::WriteValue(0, 0),
    ];
    seq(alloc, &nodes)
}

/// How it ended, where so many were committed before.
fn end_of(settled: Result<Settled, Fault>, committed: u64) -> Ends {
    match settled {
        Ok(settled) => end_settled(&settled, committed),
        Err(Fault::Full) => Ends::IsFull,
        Err(_) => Ends::Otherwise,
    }
}

fn end_settled(settled: &Settled, committed: u64) -> Ends {
    match settled {
        Settled::Committed { number, .. } => end_where(*number == committed, Ends::Commits),
        Settled::Seen { at, registers } => {
            end_where(*at == 0 && *registers == [0; 16], Ends::SeesNothing)
        }
        Settled::Aborted(code) => Ends::Aborts(*code),
        Settled::Refused(name) => end_where(name.as_str() == "nonneg", Ends::Breaks),
        Settled::Retry => Ends::Otherwise,
    }
}

/// This end where it is so, and else another one.
fn end_where(is_so: bool, end: Ends) -> Ends {
    if is_so { end } else { Ends::Otherwise }
}

/// The value of variable 0 by which the invariant refuses a plan, or an attempt at one, where that is told alone.
fn why_of<C: Asks, R: Wait>(
    rt: &R,
    alloc: Global,
    caller: &mut C,
    asked: Asked,
) -> Result<Option<i64>, Fault> {
    let tx = asked.tx(alloc)?;
    let name = names()[0];
    let Some(values) = caller.why_refused(rt, tx, asked, &name)? else {
        return Ok(None);
    };
    if values.len() == 1 && values[0].0 == 0 {
        Ok(Some(values[0].1))
    } else {
        Ok(None)
    }
}

fn must_be(rt: &impl Abort, asked: Asked, had: Option<i64>, want: Option<i64>) {
    let what = asked.what();
    assert!(rt;
        had == want,
        "{what} is refused by {had:?}, not by {want:?}"
    );
}

/// Asks why plans are refused, and attempts at some.
fn ask_why<C: Asks, R: Abort + Clock + Wait>(
    rt: &R,
    alloc: Global,
    caller: &mut C,
) -> Result<(), Fault> {
    for (asked, want) in ASKED {
        let had = why_of(rt, alloc, caller, *asked)?;
        must_be(rt, *asked, had, *want);
    }
    Ok(())
}

fn must_end(rt: &impl Abort, number: usize, call: Call, had: Ends, want: Ends) {
    assert!(rt; had == want, "row {number} ends by {call:?} so: {had:?}");
}

/// How a transaction ends by a call, where so many were committed before.
fn end_by<C: Asks, R: Clock + Wait>(
    rt: &R,
    alloc: Global,
    caller: &mut C,
    (call, task): (Call, Task),
    committed: u64,
) -> Result<Ends, Fault> {
    let tx = task.tx(alloc)?;
    let settled = caller.settle_by(rt, tx, call, Duration::from_secs(60));
    Ok(end_of(settled, committed))
}

/// Plays a row, and answers how many are committed then.
fn play_row<C: Asks, R: Abort + Clock + Wait>(
    rt: &R,
    alloc: Global,
    caller: &mut C,
    (number, row): (usize, &Row),
    mut committed: u64,
) -> Result<u64, Fault> {
    let (calls, task, times, want) = *row;
    for call in calls {
        for _ in 0..times {
            let had = end_by(rt, alloc, caller, (*call, task), committed)?;
            must_end(rt, number, *call, had, want);
            committed = committed.wrapping_add(u64::from(had == Ends::Commits));
        }
    }
    Ok(committed)
}

/// Plays the rows, and asks.
fn play<C: Asks, R: Abort + Clock + Wait>(
    rt: &R,
    alloc: Global,
    caller: &mut C,
) -> Result<(), Fault> {
    caller.take_pass(rt)?;
    let mut committed = 0u64;
    for row in ROWS.iter().enumerate() {
        committed = play_row(rt, alloc, caller, row, committed)?;
    }
    assert!(rt; committed == 256);
    ask_why(rt, alloc, caller)
}

/// Plays them in a store that was opened.
fn play_opened<
    N: StoreNaming,
    D: Disk + Drop,
    T: Invariants + Drop,
    S: StoredSteps + Drop,
    R: Abort + Clock + Wait,
>(rt: &R, alloc: Global, opened: OpenedFront<D, T, S>) -> Result<(), Fault>
    requires spine { spine_of opened ≡ N.name }
    requires opening { front_found opened ≡ N.opening }
    requires program { N.program ≡ checked_program }
    requires names { T.names (front_table opened) ≡ checked_program.names }
    requires stated { T.is_stated (front_table opened) checked_program.tests }
    requires steps { S.is_stated (front_steps opened) checked_program.steps }
{
    let front = opened.named::<N>();
    play(rt, alloc, &mut Caller::new(&front))
}

/// Plays them in a new store of 1024 variables and 64 slots.
fn play_new_store<T: Invariants + Drop, S: StoredSteps + Drop, R: Abort + Clock + Wait>(
    rt: &R,
    alloc: Global,
    table: T,
    steps: S,
) -> Result<(), Fault>
    requires vars { T.vars table ≡ 1024 }
    requires names { T.names table ≡ checked_program.names }
    requires tests { T.is_stated table checked_program.tests }
    requires steps { S.is_stated steps checked_program.steps }
{
    let disk = formatted(alloc, 1024, 64)?;
    match OpenedFront::open(alloc, disk, 1024, 64, table, steps) {
        Ok(opened) => play_opened::<Brand, _, T, S, R>(rt, alloc, opened),
        Err((fault, _disk)) => Err(fault),
    }
}

// at: 512 nodes, depth 32, 64 writes, 8 checks, 8 retirements, 500 reads, 1024 variables, 64 slots, 256 waiting
#[test]
fn each_call_of_a_front_settles_each_form_at_each_limit(rt: HostRuntime) -> Result<(), Fail> {
    let alloc = rt.alloc();
    let test = Box::new(
        alloc,
        |values: &[i64]| -> bool
            requires { length values.now ≡ 1 }
            ensures { result ≡ is_not_negative values.now }
        { nonneg(values) },
    )?;
    let invariant = Invariant::new(names()[0], vec![in alloc; 0]?, test)?;
    let table = Table::of(alloc, vec![in alloc; invariant]?, 1024)?;
    play_new_store(&rt, alloc, table, stored_steps())?;
    Ok(())
}

#[test]
fn a_register_that_is_not_0_is_told_apart(rt: HostRuntime) -> Result<(), Fail> {
    let mut registers = [0; 16];
    registers[15] = 1;
    let seen = Settled::Seen { at: 0, registers };
    assert!(rt; end_settled(&seen, 0) == Ends::Otherwise);
    Ok(())
}
