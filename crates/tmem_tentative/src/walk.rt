// A run over the reads and the answers so far.

ghost use Rattle.std.specs.Prelude.{◌≡◌, ℕ, ◌+◌, ◌<◌, ◌≤◌, IfOk, IfErr, Bool, List, [], ◌++◌, true, false, None, length, take, drop, map, slice_index};
ghost use Rattle.std.specs.List.{list_any};
ghost use Rattle.std.specs.Option.{option_to_list};
ghost use Rattle.tmem_tree.specs.StepAnswers.{StepMeanings};
ghost use Rattle.tmem_effect.specs.Names.{has_name};
ghost use Rattle.tmem_effect.specs.Writes.{value_in};
ghost use Rattle.tmem_tree.specs.Limits.{count, is_write, is_check, is_retire, is_no_register};
ghost use Rattle.tmem_tree.specs.Run.{register};
ghost use Rattle.tmem_tree.specs.Signatures.{names_of, footprint_in};
ghost use Rattle.tmem_tentative.specs.Eval.{eval, read, eval_answered, seen_of, noted_of, footprint_seen, eval_checked, tested};
ghost use Rattle.tmem_tentative.specs.declared.attempt.Probe.{Probe as Asked};
ghost use Rattle.tmem_tentative.specs.Places.{IsLeaf};
ghost use Rattle.tmem_tentative.specs.Logs.{AreOf, MayWalk, IsLeaving, run_state_of, flow_at, out_of, footprint_seen_as};

use crate::attempt::{Attempt, Ending, Probe, Reads, Values};
use crate::flow::Flow;
use std::alloc::{AllocError, Global};
use tmem_effect::Effect;
use tmem_fault::{Fault, Name};
use tmem_tree::{MAX_ARGUMENTS, REGISTERS, Signature, StepAnswer, StoredSteps, Tx, footprint_of};

/// What a run is handed.
#[derive(Clone, Copy)]
pub(crate) struct Given<'a> {
    /// The footprints of the invariants that it checks.
    pub signatures: &'a [Signature],
    /// The values of variables.
    pub reads: &'a Reads,
    /// The answers to its first tests, in order.
    pub answers: &'a [bool],
}

/// How far a run has come with its tests.
#[derive(Drop)]
pub(crate) struct Tests {
    /// How many of the answers it has used. A choice gives none of them back.
    pub used: usize,
    /// Its last test.
    pub probe: Probe,
}

/// Goes on with a run, as far as the reads and the answers allow.
#[cycle(walk)]
pub(crate) fn walk<S: StoredSteps>(
    alloc: Global,
    tx: &Tx,
    steps: &S,
    given: &Given,
    log: &mut Attempt,
    tests: &mut Tests,
) -> Result<Flow, Fault>
    requires { MayWalk (S.arities steps.now) (names_of given.now.signatures.now) tx.now log.old.effect }
    ensures room { length log.new.effect.writes ≤ length log.old.effect.writes + count is_write tx.now }
    ensures names { length log.new.effect.names ≤ length log.old.effect.names + count is_check tx.now }
    ensures retired { length log.new.effect.retired ≤ length log.old.effect.retired + count is_retire tx.now }
    ensures flow { (m : StepMeanings) (footprint : List ℕ → List ℕ) → S.is_stated steps.now m → AreOf given.now.signatures.now footprint → IfOk result (λ flow. flow_at (out_of flow log.new tests.new.probe) (run_state_of log.new (drop tests.new.used given.now.answers.now))
        ≡ eval m footprint given.now.reads.now.entries tx.now (run_state_of log.old (drop tests.old.used given.now.answers.now))) }
    ensures leaves { result ≡ Ok Flow.Leave → IsLeaving log.new.ending }
    ensures fault { IfErr result (λ fault. fault ≡ Fault.Memory) }
{
    match tx {
        Tx::Seq(txs) => {
            for t in txs {
                let flow = walk(alloc, t, steps, given, log, tests)?;
                if flow != Flow::Normal {
                    return Ok(flow);
                }
            }
            Ok(Flow::Normal)
        }
        Tx::When { reg, then, other } => {
            if log.registers[*reg as usize] == 0 {
                walk(alloc, other, steps, given, log, tests)
            } else {
                walk(alloc, then, steps, given, log, tests)
            }
        }
        Tx::OrElse(first, second) => match walk_first(alloc, first, steps, given, log, tests)? {
            Flow::Retry => walk(alloc, second, steps, given, log, tests),
            flow => Ok(flow),
        },
        _ => act(tx, steps, given, log, tests),
    }
}

// Runs a leaf of the tree.
#[inline(always)]
fn act<S: StoredSteps>(
    tx: &Tx,
    steps: &S,
    given: &Given,
    log: &mut Attempt,
    tests: &mut Tests,
) -> Result<Flow, Fault>
    requires leaf { IsLeaf tx.now }
    requires may { MayWalk (S.arities steps.now) (names_of given.now.signatures.now) tx.now log.old.effect }
    ensures room { length log.new.effect.writes ≤ length log.old.effect.writes + count is_write tx.now }
    ensures names { length log.new.effect.names ≤ length log.old.effect.names + count is_check tx.now }
    ensures retired { length log.new.effect.retired ≤ length log.old.effect.retired + count is_retire tx.now }
    ensures flow { (m : StepMeanings) (footprint : List ℕ → List ℕ) → S.is_stated steps.now m → AreOf given.now.signatures.now footprint → IfOk result (λ flow. flow_at (out_of flow log.new tests.new.probe) (run_state_of log.new (drop tests.new.used given.now.answers.now))
        ≡ eval m footprint given.now.reads.now.entries tx.now (run_state_of log.old (drop tests.old.used given.now.answers.now))) }
    ensures leaves { result ≡ Ok Flow.Leave → IsLeaving log.new.ending }
    ensures fault { IfErr result (λ fault. fault ≡ Fault.Memory) }
{
    match tx {
        Tx::Skip | Tx::Seq(_) | Tx::When { .. } | Tx::OrElse(..) => Ok(Flow::Normal),
        Tx::Put { reg, number } => {
            log.registers[*reg as usize] = *number;
            Ok(Flow::Normal)
        }
        Tx::Read { var, reg } => read(given.reads, log, *var, *reg),
        Tx::Write { var, reg } => {
            log.effect.writes.put(*var, log.registers[*reg as usize]);
            Ok(Flow::Normal)
        }
        Tx::Step { index, args, out } => Ok(call(steps, log, *index, args, *out)),
        Tx::Retry => Ok(Flow::Retry),
        Tx::Abort { code } => {
            log.ending = Ending::Abort(*code);
            Ok(Flow::Leave)
        }
        Tx::Check { name } => check(given, log, tests, name),
        Tx::Retire { name } => {
            log.effect.retire(name);
            Ok(Flow::Normal)
        }
    }
}

// Goes on with the first branch of a choice. Where that retries, the registers and the effect are as before it. They are
// saved in a frame of their own: `walk` has a frame for each level of the tree, and the second branch needs no copy.
#[cycle(walk)]
#[inline(never)]
fn walk_first<S: StoredSteps>(
    alloc: Global,
    tx: &Tx,
    steps: &S,
    given: &Given,
    log: &mut Attempt,
    tests: &mut Tests,
) -> Result<Flow, Fault>
    requires { MayWalk (S.arities steps.now) (names_of given.now.signatures.now) tx.now log.old.effect }
    ensures room { length log.new.effect.writes ≤ length log.old.effect.writes + count is_write tx.now }
    ensures names { length log.new.effect.names ≤ length log.old.effect.names + count is_check tx.now }
    ensures retired { length log.new.effect.retired ≤ length log.old.effect.retired + count is_retire tx.now }
    ensures flow { (m : StepMeanings) (footprint : List ℕ → List ℕ) → S.is_stated steps.now m → AreOf given.now.signatures.now footprint → IfOk result (λ flow. flow_at (out_of flow log.new tests.new.probe) (run_state_of log.new (drop tests.new.used given.now.answers.now))
        ≡ eval m footprint given.now.reads.now.entries tx.now (run_state_of log.old (drop tests.old.used given.now.answers.now))) }
    ensures leaves { result ≡ Ok Flow.Leave → IsLeaving log.new.ending }
    ensures registers { result ≡ Ok Flow.Retry → log.new.registers ≡ log.old.registers }
    ensures effect { result ≡ Ok Flow.Retry → log.new.effect ≡ log.old.effect }
    ensures fault { IfErr result (λ fault. fault ≡ Fault.Memory) }
{
    let registers = log.registers;
    let effect = saved(alloc, &log.effect)?;
    let flow = walk(alloc, tx, steps, given, log, tests)?;
    if flow == Flow::Retry {
        forget(log, registers, &effect);
    }
    Ok(flow)
}

// A copy of an effect in memory of its own: it would be large in the frame of a walk.
fn saved(alloc: Global, effect: &Effect) -> Result<Box<Effect>, AllocError>
    ensures { IfOk result (λ saved. saved.value ≡ effect.now) }
{
    Ok(Box::new(alloc, effect.copy())?)
}

// Forgets what a branch did that retried, but for its reads: registers and effect are as before it.
fn forget(log: &mut Attempt, registers: [i64; REGISTERS], effect: &Effect)
    ensures registers { log.new.registers ≡ registers }
    ensures effect { log.new.effect ≡ effect.now }
    ensures reads { log.new.reads ≡ log.old.reads }
{
    log.registers = registers;
    log.effect.copy_from(effect);
}

// A Read of one variable.
#[tactic(auto, using(crate::proofs::EvalSights::read_on_seen))]
fn read(reads: &Reads, log: &mut Attempt, var: u16, reg: u8) -> Result<Flow, Fault>
    requires { reg < 16 }
    ensures effect { log.new.effect ≡ log.old.effect }
    ensures flow { (left : List Bool) (probe : Asked) → IfOk result (λ flow. flow_at (out_of flow log.new probe) (run_state_of log.new left) ≡ read (value_in log.old.effect.writes var) (value_in reads.now.entries var) (run_state_of log.old left) var reg) }
    ensures leaves_none { result ≡ Ok Flow.Leave → ⊥ }
    ensures fault { IfErr result (λ fault. fault ≡ Fault.Memory) }
{
    match see(reads, log, var)? {
        Some(number) => {
            log.registers[reg as usize] = number;
            Ok(Flow::Normal)
        }
        None => Ok(Flow::Need(var)),
    }
}

// What a run sees of a variable: its own write, or else the value of the reads, which it notes.
fn see(reads: &Reads, log: &mut Attempt, var: u16) -> Result<Option<i64>, Fault>
    ensures effect { log.new.effect ≡ log.old.effect }
    ensures ending { log.new.ending ≡ log.old.ending }
    ensures value { IfOk result (λ value. value ≡ seen_of (value_in log.old.effect.writes var) (value_in reads.now.entries var)) }
    ensures state { (left : List Bool) → IfOk result (λ _. run_state_of log.new left ≡ noted_of (value_in log.old.effect.writes var) (value_in reads.now.entries var) (run_state_of log.old left) var) }
    ensures fault { IfErr result (λ fault. fault ≡ Fault.Memory) }
{
    let own = log.effect.writes.get(var);
    if own.is_some() {
        return Ok(own);
    }
    let value = reads.get(&var).copied();
    if let Some(number) = value {
        log.reads.insert(var, number)?;
    }
    Ok(value)
}

// A Check of one invariant, in a frame of its own: few runs have one.
#[inline(never)]
fn check(given: &Given, log: &mut Attempt, tests: &mut Tests, name: &Name) -> Result<Flow, Fault>
    requires known { has_name (names_of given.now.signatures.now) name.now ≡ true }
    requires room { length log.old.effect.names < 8 }
    ensures writes { log.new.effect.writes ≡ log.old.effect.writes }
    ensures names { length log.new.effect.names ≤ length log.old.effect.names + 1 }
    ensures retired { length log.new.effect.retired ≤ length log.old.effect.retired }
    ensures flow { IfOk result (λ flow. flow_at (out_of flow log.new tests.new.probe) (run_state_of log.new (drop tests.new.used given.now.answers.now))
        ≡ eval_checked (footprint_seen given.now.reads.now.entries (footprint_in given.now.signatures.now name.now) (run_state_of log.old (drop tests.old.used given.now.answers.now))) name.now) }
    ensures leaves { result ≡ Ok Flow.Leave → IsLeaving log.new.ending }
    ensures fault { IfErr result (λ fault. fault ≡ Fault.Memory) }
{
    tests.probe.name = *name;
    let vars = footprint_of(given.signatures, name);
    if let Some(lacking) = see_all(given.reads, log, vars, &mut tests.probe.values)? {
        return Ok(Flow::Need(lacking));
    }
    let held = given.answers.get(tests.used).copied();
    if held.is_some() {
        tests.used += 1;
    }
    Ok(settle(held, log, &tests.probe))
}

// Puts what a run sees of the variables of a footprint into a list; or answers the first of which it sees nothing.
fn see_all(
    reads: &Reads,
    log: &mut Attempt,
    vars: &[u16],
    into: &mut Values,
) -> Result<Option<u16>, Fault>
    requires { length vars.now ≤ 16 }
    ensures effect { log.new.effect ≡ log.old.effect }
    ensures seen { (left : List Bool) → IfOk result (λ lacking. footprint_seen_as lacking into.new (run_state_of log.new left) ≡ footprint_seen reads.now.entries vars.now (run_state_of log.old left)) }
    ensures fault { IfErr result (λ fault. fault ≡ Fault.Memory) }
{
    into.clear();
    for var in vars {
        match see(reads, log, *var)? {
            Some(value) => into.push(value),
            None => return Ok(Some(*var)),
        }
    }
    Ok(None)
}

/// What becomes of a run at a test, with its answer where there is one: an invariant that holds is proposed, and one that does not
/// ends the run.
pub(crate) fn settle(held: Option<bool>, log: &mut Attempt, probe: &Probe) -> Flow
    requires { length log.old.effect.names < 8 }
    ensures reads { log.new.reads ≡ log.old.reads }
    ensures writes { log.new.effect.writes ≡ log.old.effect.writes }
    ensures names { length log.new.effect.names ≤ length log.old.effect.names + 1 }
    ensures retired { length log.new.effect.retired ≤ length log.old.effect.retired }
    ensures stays { result ≡ Flow.Test → log.new ≡ log.old }
    ensures needs_none { (n : ℕ) → result ≡ Flow.Need n → ⊥ }
    ensures flow { (left : List Bool) → (held ≡ None → left ≡ []) → flow_at (out_of result log.new probe.now) (run_state_of log.new left) ≡ tested (option_to_list held ++ left) probe.now.name probe.now.values (run_state_of log.old (option_to_list held ++ left)) }
    ensures leaves { result ≡ Flow.Leave → IsLeaving log.new.ending }
{
    match held {
        None => Flow::Test,
        Some(true) => {
            log.effect.check(&probe.name);
            Flow::Normal
        }
        Some(false) => {
            log.ending = Ending::Broken(probe.name);
            Flow::Leave
        }
    }
}

/// A call of one step.
pub(crate) fn call<S: StoredSteps>(
    steps: &S,
    log: &mut Attempt,
    index: u16,
    args: &[u8],
    out: u8,
) -> Flow
    requires there { index < length (S.arities steps.now) }
    requires given { length args.now ≡ slice_index (S.arities steps.now) index }
    requires few { length args.now ≤ 4 }
    requires registers { list_any is_no_register args.now ≡ false }
    requires out { out < 16 }
    ensures needs_none { (n : ℕ) → result ≡ Flow.Need n → ⊥ }
    ensures tests_none { result ≡ Flow.Test → ⊥ }
    ensures effect { log.new.effect ≡ log.old.effect }
    ensures reads { log.new.reads ≡ log.old.reads }
    ensures flow { (m : StepMeanings) → S.is_stated steps.now m → (left : List Bool) (probe : Asked) → flow_at (out_of result log.new probe) (run_state_of log.new left) ≡ eval_answered (m index (map (register log.old.registers) args.now)) (run_state_of log.old left) out }
    ensures leaves { result ≡ Flow.Leave → IsLeaving log.new.ending }
{
    let mut given = [0; MAX_ARGUMENTS as usize];
    gather(args, &log.registers, &mut given);
    match steps.answer(index as usize, &given[..args.len()]) {
        StepAnswer::Value(number) => {
            log.registers[out as usize] = number;
            Flow::Normal
        }
        StepAnswer::Retry => Flow::Retry,
        StepAnswer::Abort(code) => {
            log.ending = Ending::Abort(code);
            Flow::Leave
        }
    }
}

// Puts the values of registers at the front of a buffer.
fn gather(args: &[u8], registers: &[i64], into: &mut [i64])
    requires room { length args.now ≤ length into.old }
    requires all { length registers.now ≡ 16 }
    requires registers { list_any is_no_register args.now ≡ false }
    ensures { take (length args.now) into.new ≡ map (register registers.now) args.now }
{
    for (i, arg) in args.iter().enumerate() {
        into[i] = registers[*arg as usize];
    }
}
