// A run that goes on from a place inside its tree.

ghost use Rattle.std.specs.Prelude.{◌≡◌, ◌↔◌, ℕ, ℤ, ◌+◌, ◌<◌, ◌≤◌, Bool, true, List, [], None, length, drop, option_to_list, IsTrue, if◌then◌else◌};
ghost use Rattle.std.specs.List.{list_any};
ghost use Rattle.tmem_tree.specs.StepAnswers.{StepMeanings};
ghost use Rattle.tmem_effect.specs.Writes.{value_in};
ghost use Rattle.tmem_effect.specs.declared.effect.Effect.{Effect};
ghost use Rattle.tmem_tree.specs.Limits.{count, is_write, is_check, is_retire};
ghost use Rattle.tmem_effect.specs.Names.{has_name};
ghost use Rattle.tmem_tree.specs.Run.{register, is_zero};
ghost use Rattle.tmem_tree.specs.Signatures.{footprint_in, names_of};
ghost use Rattle.tmem_tree.specs.Visited.{Ask};
ghost use Rattle.tmem_tentative.specs.declared.attempt.Probe.{Probe as Asked};
ghost use Rattle.tmem_tentative.specs.declared.save.Save.{Save};
ghost use Rattle.tmem_tentative.specs.Eval.{footprint_seen, seen_of};
ghost use Rattle.tmem_tentative.specs.Logs.{MayWalk, AreOf, IsLeaving, Stopped, run_state_of, flow_at, out_of, footprint_seen_as};
ghost use Rattle.tmem_tentative.specs.Places.{MayRunFrom, RunsTo, IsPathBehind, LeadsTo, place_of, place_at, taken_at, out_at, with_child, Enters, EntersChoice, IsLeaf, read_seen};

use crate::attempt::{Attempt, Ending, Reads, Values};
use crate::course::Course;
use crate::flow::Flow;
use crate::path::Path;
use crate::save::Save;
use crate::walk::{call, settle};
use tmem_fault::Name;
use tmem_tree::{Plan, StoredSteps, Tx, footprint_of};

/// Goes on with a run from its place in a tree of a plan, as far as its reads and its answer allow. Where it asks, the path leads to
/// the Read or the Check that does, and else there is none. It takes no memory: each choice that is entered takes one of the saves.
#[cycle(walk_on)]
pub(crate) fn walk_on<S: StoredSteps>(
    tx: &Tx,
    plan: &Plan,
    steps: &S,
    course: &mut Course,
    saves: &mut [Save],
) -> Flow
    requires { MayRunFrom (S.arities steps.now) (names_of plan.now.signatures) tx.now (place_at course.old saves.old) }
    ensures reads { course.new.attempt.reads ≡ course.old.attempt.reads }
    ensures leaves { result ≡ Flow.Leave → IsLeaving course.new.attempt.ending }
    ensures runs { RunsTo (S.is_stated steps.now) plan.now.signatures (taken_at course.old) tx.now (place_at course.old saves.old) (out_at result course.new) (place_at course.new saves.new) (option_to_list course.new.pending) }
{
    match tx {
        Tx::Seq(txs) => {
            let from = enter(&mut course.path, 0);
            for (i, t) in rest_of(txs, from).iter().enumerate() {
                let flow = walk_part(t, plan, steps, course, saves);
                if flow != Flow::Normal {
                    note(course, flow, from + i);
                    return flow;
                }
            }
            Flow::Normal
        }
        Tx::When { reg, then, other } => {
            if enter(&mut course.path, branch_of(&course.attempt, *reg)) == 0 {
                let flow = walk_on(then, plan, steps, course, saves);
                note(course, flow, 0);
                flow
            } else {
                let flow = walk_on(other, plan, steps, course, saves);
                note(course, flow, 1);
                flow
            }
        }
        Tx::OrElse(first, second) => {
            if !enter_choice(&course.attempt, &mut course.path, saves) {
                let flow = walk_on(second, plan, steps, course, saves);
                note(course, flow, 1);
                return flow;
            }
            let flow = walk_on(first, plan, steps, course, &mut saves[1..]);
            if flow != Flow::Retry {
                note(course, flow, 0);
                return flow;
            }
            go_back(&mut course.attempt, &saves[0]);
            let flow = walk_on(second, plan, steps, course, saves);
            note(course, flow, 1);
            flow
        }
        _ => act(tx, plan, steps, course),
    }
}

// The trees of a sequence from one of them on.
#[inline(always)]
fn rest_of(txs: &[Tx], from: usize) -> &[Tx]
    requires { from ≤ length txs.now }
    ensures { result.now ≡ drop from txs.now }
{
    &txs[from..]
}

// Goes on with a part of a run, as `walk_on` does. Most parts are leaves: they are run in the frame of the sequence.
#[cycle(walk_on)]
#[inline(always)]
fn walk_part<S: StoredSteps>(
    tx: &Tx,
    plan: &Plan,
    steps: &S,
    course: &mut Course,
    saves: &mut [Save],
) -> Flow
    requires { MayRunFrom (S.arities steps.now) (names_of plan.now.signatures) tx.now (place_at course.old saves.old) }
    ensures reads { course.new.attempt.reads ≡ course.old.attempt.reads }
    ensures leaves { result ≡ Flow.Leave → IsLeaving course.new.attempt.ending }
    ensures runs { RunsTo (S.is_stated steps.now) plan.now.signatures (taken_at course.old) tx.now (place_at course.old saves.old) (out_at result course.new) (place_at course.new saves.new) (option_to_list course.new.pending) }
{
    if is_leaf(tx) {
        act(tx, plan, steps, course)
    } else {
        walk_on(tx, plan, steps, course, saves)
    }
}

// Whether a transaction has no parts.
fn is_leaf(tx: &Tx) -> bool
    ensures { IsTrue result ↔ IsLeaf tx.now }
{
    !matches!(tx, Tx::Seq(_) | Tx::When { .. } | Tx::OrElse(..))
}

// The child that is entered: the first of the path, or at the start of the tree this one.
fn enter(path: &mut Path, start: usize) -> usize
    ensures { Enters path.old start result path.new }
{
    path.pop().unwrap_or(start)
}

// The child of a When that is entered at its start.
fn branch_of(log: &Attempt, reg: u8) -> usize
    requires { reg < 16 }
    ensures { result ≡ (if is_zero (register log.now.registers reg) then 1 else 0) }
{
    if log.registers[reg as usize] == 0 {
        1
    } else {
        0
    }
}

// Notes the child that leads to the place where the run goes on.
fn note(course: &mut Course, flow: Flow, child: usize)
    requires { IsPathBehind (out_at flow course.old) 32 course.old.path }
    ensures { course.new ≡ record course.old { path = with_child (out_at flow course.old) child course.old.path } }
{
    if let Flow::Need(_) | Flow::Test = flow {
        course.path.push(child);
    }
}

// Enters a choice, and answers whether that is its first branch. At the start of the tree the registers and the effect are
// saved.
fn enter_choice(log: &Attempt, path: &mut Path, saves: &mut [Save]) -> bool
    requires { 0 < length saves.old }
    ensures { EntersChoice path.old (record { registers = log.now.registers; effect = log.now.effect }) saves.old result path.new saves.new }
{
    match path.pop() {
        None => {
            keep(log, &mut saves[0]);
            true
        }
        Some(branch) => branch == 0,
    }
}

// Saves the registers and the effect.
fn keep(log: &Attempt, save: &mut Save)
    ensures { save.new ≡ record { registers = log.now.registers; effect = log.now.effect } }
{
    save.registers = log.registers;
    save.effect.copy_from(&log.effect);
}

// Forgets what a branch did that retried, but for its reads.
fn go_back(log: &mut Attempt, save: &Save)
    ensures registers { log.new.registers ≡ save.now.registers }
    ensures effect { log.new.effect ≡ save.now.effect }
    ensures reads { log.new.reads ≡ log.old.reads }
{
    log.registers = save.registers;
    log.effect.copy_from(&save.effect);
}

// Runs a leaf of the tree.
#[inline(always)]
fn act<S: StoredSteps>(tx: &Tx, plan: &Plan, steps: &S, course: &mut Course) -> Flow
    requires leaf { IsLeaf tx.now }
    requires may { MayWalk (S.arities steps.now) (names_of plan.now.signatures) tx.now course.old.attempt.effect }
    ensures leaf { IsLeaf tx.now }
    ensures reads { course.new.attempt.reads ≡ course.old.attempt.reads }
    ensures path { course.new.path ≡ course.old.path }
    ensures room { length course.new.attempt.effect.writes ≤ length course.old.attempt.effect.writes + count is_write tx.now }
    ensures names { length course.new.attempt.effect.names ≤ length course.old.attempt.effect.names + count is_check tx.now }
    ensures retired { length course.new.attempt.effect.retired ≤ length course.old.attempt.effect.retired + count is_retire tx.now }
    ensures stays { (ask : Ask) → out_at result course.new ≡ Stopped ask → course.new.attempt.effect ≡ course.old.attempt.effect }
    ensures leaves { result ≡ Flow.Leave → IsLeaving course.new.attempt.ending }
    ensures leads { (m : StepMeanings) (footprint : List ℕ → List ℕ) → S.is_stated steps.now m → AreOf plan.now.signatures footprint → (saves : List Save)
        → LeadsTo m footprint (taken_at course.old) tx.now (place_of course.old.attempt [] saves) (out_at result course.new) (place_of course.new.attempt [] saves) (option_to_list course.new.pending) }
{
    match tx {
        Tx::Skip | Tx::Seq(_) | Tx::When { .. } | Tx::OrElse(..) => Flow::Normal,
        Tx::Put { reg, number } => {
            course.attempt.registers[*reg as usize] = *number;
            Flow::Normal
        }
        Tx::Read { var, reg } => read(&mut course.attempt, *var, *reg),
        Tx::Write { var, reg } => {
            course
                .attempt
                .effect
                .writes
                .put(*var, course.attempt.registers[*reg as usize]);
            Flow::Normal
        }
        Tx::Step { index, args, out } => call(steps, &mut course.attempt, *index, args, *out),
        Tx::Retry => Flow::Retry,
        Tx::Abort { code } => {
            course.attempt.ending = Ending::Abort(*code);
            Flow::Leave
        }
        Tx::Check { name } => check(name, plan, course),
        Tx::Retire { name } => {
            course.attempt.effect.retire(name);
            Flow::Normal
        }
    }
}

// A Read of one variable.
#[inline(always)]
fn read(log: &mut Attempt, var: u16, reg: u8) -> Flow
    requires { reg < 16 }
    ensures effect { log.new.effect ≡ log.old.effect }
    ensures reads { log.new.reads ≡ log.old.reads }
    ensures stays { (ask : Ask) (probe : Asked) → out_of result log.new probe ≡ Stopped ask → log.new ≡ log.old }
    ensures leaves_none { result ≡ Flow.Leave → ⊥ }
    ensures flow { (left : List Bool) (probe : Asked) → flow_at (out_of result log.new probe) (run_state_of log.new left) ≡ read_seen (value_in log.old.effect.writes var) (value_in log.old.reads.entries var) (run_state_of log.old left) var reg }
{
    if let Some(number) = log.effect.writes.get(var) {
        log.registers[reg as usize] = number;
        return Flow::Normal;
    }
    match value_read(&log.reads, var) {
        Some(number) => {
            log.registers[reg as usize] = number;
            Flow::Normal
        }
        None => Flow::Need(var),
    }
}

// The value that was given of a variable. Most often that is the last one that was given, or none was given at all: then
// nothing is looked up in the map.
#[inline(always)]
fn value_read(reads: &Reads, var: u16) -> Option<i64>
    ensures { result ≡ value_in reads.now.entries var }
{
    let (last, value) = reads.get_index(reads.len().saturating_sub(1))?;
    if *last == var {
        return Some(*value);
    }
    reads.get(&var).copied()
}

// A Check of one invariant, in a frame of its own: few runs have one. Its footprint is seen anew at each call, until its test is
// answered.
#[inline(never)]
fn check(name: &Name, plan: &Plan, course: &mut Course) -> Flow
    requires known { has_name (names_of plan.now.signatures) name.now ≡ true }
    requires room { length course.old.attempt.effect.names < 8 }
    ensures reads { course.new.attempt.reads ≡ course.old.attempt.reads }
    ensures path { course.new.path ≡ course.old.path }
    ensures writes { course.new.attempt.effect.writes ≡ course.old.attempt.effect.writes }
    ensures names { length course.new.attempt.effect.names ≤ length course.old.attempt.effect.names + 1 }
    ensures retired { length course.new.attempt.effect.retired ≤ length course.old.attempt.effect.retired }
    ensures stays { (ask : Ask) → out_at result course.new ≡ Stopped ask → course.new.attempt ≡ course.old.attempt }
    ensures leaves { result ≡ Flow.Leave → IsLeaving course.new.attempt.ending }
    ensures leads { (m : StepMeanings) (footprint : List ℕ → List ℕ) (saves : List Save) → footprint name.now ≡ footprint_in plan.now.signatures name.now
        → LeadsTo m footprint (taken_at course.old) (Tx.Check name.now) (place_of course.old.attempt [] saves) (out_at result course.new) (place_of course.new.attempt [] saves) (option_to_list course.new.pending) }
{
    course.probe.name = *name;
    let vars = footprint_of(plan.signatures(), name);
    if let Some(lacking) = see_given(&course.attempt, vars, &mut course.probe.values) {
        return Flow::Need(lacking);
    }
    let held = course.pending.take();
    settle(held, &mut course.attempt, &course.probe)
}

// Puts the values of a footprint into a list, as the transaction sees them: its own write of a variable, or else the value that was
// given. Or it answers the first variable that is neither written nor given.
fn see_given(log: &Attempt, vars: &[u16], into: &mut Values) -> Option<u16>
    requires { length vars.now ≤ 16 }
    ensures { (left : List Bool) → footprint_seen log.now.reads.entries vars.now (run_state_of log.now left) ≡ footprint_seen_as result into.new (run_state_of log.now left) }
{
    into.clear();
    for var in vars {
        match value_seen(log, *var) {
            Some(value) => into.push(value),
            None => return Some(*var),
        }
    }
    None
}

// What the transaction sees of one variable.
fn value_seen(log: &Attempt, var: u16) -> Option<i64>
    ensures { result ≡ seen_of (value_in log.now.effect.writes var) (value_in log.now.reads.entries var) }
{
    match log.effect.writes.get(var) {
        Some(number) => Some(number),
        None => log.reads.get(&var).copied(),
    }
}
