//! Evaluates a transaction from the start again and again, and by a cursor. A call that is refused is told, and made once more on
//! the same state.
ghost use Rattle.std.specs.Prelude.{◌≡◌, ◌≤◌, IfOk};
ghost use Rattle.tmem_tree.specs.StepAnswers.{StepMeanings};
ghost use Rattle.tmem_tree.specs.Plans.{FitsSteps};
ghost use Rattle.tmem_tentative.specs.Cursors.{StandsIn, IsAnswer};

use crate::attempts::{are_alike, are_read_alike, print_attempt};
use crate::calls::CallCounts;
use crate::failure::PlayFailure;
use crate::printing::print_fault;
use std::alloc::Global;
use std::io::{self, Write};
use tmem_builtins::{names, nonneg, ordered, sum};
use tmem_fault::Fault;
use tmem_tentative::{Attempt, Cursor, Outcome, Probe, Reads, evaluate};
use tmem_tree::{Footprint, MAX_CHECKS, MAX_TURNS, Plan, Signature, StoredSteps, Tx};

/// Evaluates a transaction in both ways, where the variables have these values, and each further one 0. Prints what it comes
/// to, and how often each way called a stored step; or that the two differ.
pub(crate) fn evaluate_twice<S: StoredSteps, W: Write>(
    alloc: Global,
    vars: u16,
    values: &[i64],
    tx: Tx,
    steps: &S,
    calls: &CallCounts,
    out: &mut W,
) -> Result<(), PlayFailure> {
    match Plan::new(tx, steps, vars, &signatures()) {
        Ok(plan) => evaluate_plan(alloc, &plan, values, steps, calls, out),
        Err(fault) => Ok(print_fault(fault, out)?),
    }
}

// The three invariants, each with its variables.
fn signatures() -> [Signature; 3] {
    let names = names();
    [
        Signature {
            name: names[0],
            footprint: Footprint::of(&[0]),
        },
        Signature {
            name: names[1],
            footprint: Footprint::of(&[2, 3]),
        },
        Signature {
            name: names[2],
            footprint: Footprint::of(&[0, 1]),
        },
    ]
}

// Whether the invariant of a test holds on the test's values.
fn holds(probe: &Probe) -> bool {
    let names = names();
    let (first, second) = (names[0], names[1]);
    let values = probe.values.as_slice();
    if probe.name == first {
        values.len() == 1 && nonneg(values)
    } else if probe.name == second {
        values.len() == 2 && ordered(values)
    } else {
        values.len() == 2 && sum(values)
    }
}

// The attempt that one way comes to, or none where what it read is not what it was given.
type Trial = Option<Attempt>;

// Evaluates a plan in both ways, and prints what they come to.
fn evaluate_plan<S: StoredSteps, W: Write>(
    alloc: Global,
    plan: &Plan,
    values: &[i64],
    steps: &S,
    calls: &CallCounts,
    out: &mut W,
) -> Result<(), PlayFailure>
    requires { FitsSteps (S.arities steps.now) plan.now.tree }
{
    let _ = calls.take_steps();
    let plain = by_evaluate(alloc, plan, steps, values, calls, out)?;
    let by_plain = calls.take_steps();
    let other = by_cursor(alloc, plan, steps, values, out)?;
    Ok(print_trials(&plain, &other, by_plain, calls.take_steps(), out)?)
}

// Prints the attempt that both ways come to, and how often each called a stored step; or that they differ.
fn print_trials<W: Write>(
    plain: &Trial,
    other: &Trial,
    by_plain: u64,
    by_other: u64,
    out: &mut W,
) -> io::Result<()> {
    match (plain, other) {
        (Some(attempt), Some(other)) if are_alike(attempt, other) => {
            print_attempt(attempt, out)?;
            writeln!(out, " calls={by_plain},{by_other}")
        }
        _ => out.write_all(b"differ\n"),
    }
}

// The value of a variable.
fn value_of(values: &[i64], var: u16) -> i64 {
    match values.get(usize::from(var)) {
        Some(value) => *value,
        None => 0,
    }
}

// Evaluates a plan from the start, again after each variable and each answer that it needs. None where what it read is not what
// it was given.
fn by_evaluate<S: StoredSteps, W: Write>(
    alloc: Global,
    plan: &Plan,
    steps: &S,
    values: &[i64],
    calls: &CallCounts,
    out: &mut W,
) -> Result<Trial, PlayFailure>
    requires { FitsSteps (S.arities steps.now) plan.now.tree }
{
    let mut reads = Reads::new(alloc);
    let mut answers = [false; MAX_CHECKS];
    let mut answered = 0;
    for _ in 0..=MAX_TURNS {
        let given = &answers[..answered];
        let outcome = evaluated(alloc, plan, steps, &reads, given, calls, out)?;
        let turn = add_needed(
            outcome,
            values,
            &mut reads,
            &mut answers,
            &mut answered,
            out,
        )?;
        if let Turn::Stop(trial) = turn {
            return Ok(trial);
        }
    }
    Ok(None)
}

// What comes of one evaluation.
#[derive(Drop)]
enum Turn {
    // It is to be evaluated once more.
    GoOn,
    // This is what it comes to.
    Stop(Trial),
}

// Adds the value or the answer that an evaluation needs.
fn add_needed<W: Write>(
    outcome: Outcome,
    values: &[i64],
    reads: &mut Reads,
    answers: &mut [bool; MAX_CHECKS],
    answered: &mut usize,
    out: &mut W,
) -> Result<Turn, PlayFailure>
    requires { answered.old ≤ 8 }
    ensures { answered.new ≤ 8 }
{
    match outcome {
        Outcome::Need(var) => {
            read(reads, var, value_of(values, var), out)?;
            Ok(Turn::GoOn)
        }
        Outcome::Probe(probe) => Ok(add_answer(&probe, answers, answered)),
        Outcome::Ended(attempt) => Ok(Turn::Stop(where_read(attempt, reads))),
    }
}

// Adds the answer of a test, if there is room for it.
fn add_answer(probe: &Probe, answers: &mut [bool; MAX_CHECKS], answered: &mut usize) -> Turn
    requires { answered.old ≤ 8 }
    ensures { answered.new ≤ 8 }
{
    if *answered == MAX_CHECKS {
        return Turn::Stop(None);
    }
    answers[*answered] = holds(probe);
    *answered += 1;
    Turn::GoOn
}

// The attempt, if this is what it read.
fn where_read(attempt: Attempt, reads: &Reads) -> Option<Attempt> {
    if are_read_alike(reads, &attempt.reads) {
        Some(attempt)
    } else {
        None
    }
}

// Evaluates a plan from the start. Where that is refused, its calls of steps are not counted.
fn evaluated<S: StoredSteps, W: Write>(
    alloc: Global,
    plan: &Plan,
    steps: &S,
    reads: &Reads,
    answers: &[bool],
    calls: &CallCounts,
    out: &mut W,
) -> Result<Outcome, PlayFailure>
    requires { FitsSteps (S.arities steps.now) plan.now.tree }
{
    let before = calls.steps();
    match evaluate(alloc, plan, steps, reads, answers) {
        Ok(outcome) => Ok(outcome),
        Err(fault) => {
            print_fault(fault, out)?;
            calls.go_back(before);
            Ok(evaluate(alloc, plan, steps, reads, answers)?)
        }
    }
}

// Adds a value that was read.
fn read<W: Write>(reads: &mut Reads, var: u16, value: i64, out: &mut W) -> Result<(), PlayFailure> {
    if reads.insert(var, value).is_err() {
        print_fault(Fault::Memory, out)?;
        reads.insert(var, value)?;
    }
    Ok(())
}

// Evaluates a plan by a cursor, which goes on after each variable and each answer that it needs.
fn by_cursor<S: StoredSteps, W: Write>(
    alloc: Global,
    plan: &Plan,
    steps: &S,
    values: &[i64],
    out: &mut W,
) -> Result<Trial, PlayFailure>
    requires { FitsSteps (S.arities steps.now) plan.now.tree }
{
    let mut cursor = new_cursor(alloc, plan, out)?;
    for _ in 0..=MAX_TURNS {
        let trial = gone_on(&mut cursor, plan, steps, values, out)?;
        if trial.is_some() {
            return Ok(trial);
        }
    }
    Ok(None)
}

// A cursor at the start of a plan.
fn new_cursor<W: Write>(alloc: Global, plan: &Plan, out: &mut W) -> Result<Cursor, PlayFailure>
    ensures { (m : StepMeanings) → IfOk result (StandsIn m plan.now) }
{
    match Cursor::new(alloc, plan) {
        Ok(cursor) => Ok(cursor),
        Err(fault) => {
            print_fault(fault, out)?;
            Ok(Cursor::new(alloc, plan)?)
        }
    }
}

// Lets a cursor go on, and gives it the value or the answer that it needs, if it needs one.
fn gone_on<S: StoredSteps, W: Write>(
    cursor: &mut Cursor,
    plan: &Plan,
    steps: &S,
    values: &[i64],
    out: &mut W,
) -> Result<Option<Attempt>, PlayFailure>
    requires steps { FitsSteps (S.arities steps.now) plan.now.tree }
    requires stands { (m : StepMeanings) → S.is_stated steps.now m → StandsIn m plan.now cursor.old }
    ensures { (m : StepMeanings) → S.is_stated steps.now m → StandsIn m plan.now cursor.new }
{
    match resumed(cursor, plan, steps, out)? {
        Outcome::Need(var) => {
            cursor.give(var, value_of(values, var));
            Ok(None)
        }
        Outcome::Probe(probe) => {
            cursor.answer(holds(&probe));
            Ok(None)
        }
        Outcome::Ended(attempt) => Ok(Some(attempt)),
    }
}

// Lets a cursor go on. Where that is refused, it calls no step a second time.
fn resumed<S: StoredSteps, W: Write>(
    cursor: &mut Cursor,
    plan: &Plan,
    steps: &S,
    out: &mut W,
) -> Result<Outcome, PlayFailure>
    requires steps { FitsSteps (S.arities steps.now) plan.now.tree }
    requires stands { (m : StepMeanings) → S.is_stated steps.now m → StandsIn m plan.now cursor.old }
    ensures stands { (m : StepMeanings) → S.is_stated steps.now m → StandsIn m plan.now cursor.new }
    ensures answer { IfOk result (IsAnswer cursor.new) }
{
    match cursor.resume(plan, steps) {
        Ok(outcome) => Ok(outcome),
        Err(fault) => {
            print_fault(fault, out)?;
            Ok(cursor.resume(plan, steps)?)
        }
    }
}
