// Why an invariant refuses a transaction.
ghost use Rattle.std.specs.Prelude.{◌≡◌, ◌<◌, true, false, length, map, Some, IfOk, IfErr, IfSome};
ghost use Rattle.std.specs.List.{Contains};
ghost use Rattle.std.specs.Map.{keys_of};
ghost use Rattle.tmem_effect.specs.Names.{has_name};
ghost use Rattle.tmem_invariants.specs.TableNames.{AreBelow};
ghost use Rattle.tmem_tentative.specs.Cursors.{HasEnded};
ghost use Rattle.tmem_tree.specs.Plans.{FitsSteps, FitsVariables, FitsNames, FitsSignatures};
ghost use Rattle.tmem_tree.specs.Signatures.{names_of};
ghost use Rattle.tmem_seats.specs.Histories.{state_after_history};
ghost use Rattle.tmem_seats.specs.Refusing.{IsFalseOn, AreEndValues, end_value};
ghost use Rattle.tmem_seats.specs.Settling.{KnowsMore};

use crate::front::Front;
use std::alloc::{AllocError, Global};
use std::sync::Wait;
use tmem_disk::Disk;
use tmem_effect::Writes;
use tmem_fault::{Fault, Name};
use tmem_invariants::Invariants;
use tmem_seats::{CoreSeat, Pass, StoreNaming};
use tmem_tentative::{Attempt, Cursor, Probe, Progress, Values};
use tmem_tree::{Plan, Signature, StoredSteps};

impl<D: Disk + Drop, N: StoreNaming, T: Invariants + Drop, S: StoredSteps + Drop> Front<
    D,
    N,
    T,
    S,
> {
    /// The values that a test saw by which an invariant refuses a plan of this front: those of its footprint, where the plan checks it,
    /// or else at the end of the plan. The plan is evaluated once more, after all that the pass then knows, so where something was
    /// committed since it was refused, it may not be refused any more: `None`. Its only fault is want of memory.
    pub fn why_refused<R: Wait>(
        &self,
        rt: &R,
        pass: &mut Pass<N>,
        plan: &Plan,
        name: &Name,
    ) -> Result<Option<Vec<(u16, i64)>>, Fault>
        requires steps { FitsSteps (S.arities self.now.steps) plan.now.tree }
        requires variables { FitsVariables self.now.vars plan.now }
        requires names { FitsNames N.program.names plan.now.tree }
        requires signatures { FitsSignatures N.program.tests plan.now }
        ensures why { IfOk result (λ found. IfSome found (λ values. IsFalseOn N.program.tests name.now values.items)) }
        ensures knows { KnowsMore pass.old pass.new }
        ensures memory { IfErr result (λ fault. fault ≡ Fault.Memory) }
    {
        let mut held = self.core.lock(rt);
        let core = &mut *held;
        let _count = core.meet(&self.spine, &mut pass.seat);
        let Some(signature) = signature_of(&self.signatures, name) else {
            return Ok(None);
        };
        let values = match self.last_test(rt, core, &mut pass.cursor, plan, name)? {
            Some(values) => values,
            None => at_end(core, &pass.cursor.attempt().effect.writes, signature),
        };
        self.told_where_false(core, signature, values)
    }

    /// The same of an attempt that was made elsewhere and ended normally: what its end makes of the footprint.
    pub fn why_attempt_refused<R: Wait>(
        &self,
        rt: &R,
        pass: &mut Pass<N>,
        attempt: &Attempt,
        name: &Name,
    ) -> Result<Option<Vec<(u16, i64)>>, Fault>
        ensures why { IfOk result (λ found. IfSome found (λ values. IsFalseOn N.program.tests name.now values.items)) }
        ensures end { IfOk result (λ found. IfSome found (λ values. AreEndValues (state_after_history N.opening pass.new.known).values attempt.now.effect.writes values.items)) }
        ensures knows { KnowsMore pass.old pass.new }
        ensures memory { IfErr result (λ fault. fault ≡ Fault.Memory) }
    {
        let mut held = self.core.lock(rt);
        let core = &mut *held;
        let _count = core.meet(&self.spine, &mut pass.seat);
        let Some(signature) = signature_of(&self.signatures, name) else {
            return Ok(None);
        };
        let values = at_end(core, &attempt.effect.writes, signature);
        self.told_where_false(core, signature, values)
    }

    // Evaluates a plan in place, from its start to its end. Answers the values of the test that left it, where one of the invariant of
    // this name did.
    fn last_test<R: Wait>(
        &self,
        rt: &R,
        core: &CoreSeat<N, T>,
        cursor: &mut Cursor,
        plan: &Plan,
        name: &Name,
    ) -> Result<Option<Values>, Fault>
        requires steps { FitsSteps (S.arities self.now.steps) plan.now.tree }
        requires variables { FitsVariables self.now.vars plan.now }
        requires names { FitsNames N.program.names plan.now.tree }
        requires signatures { FitsSignatures N.program.tests plan.now }
        ensures ended { IfOk result (λ _. HasEnded cursor.new) }
        ensures filled { IfOk result (λ found. IfSome found (λ values. length values ≡ length (N.program.tests.footprint name.now))) }
        ensures memory { IfErr result (λ fault. fault ≡ Fault.Memory) }
    {
        let mut failed = None;
        cursor.restart(plan)?;
        for _ in rt.forever() {
            match cursor.advance(plan, &self.steps)? {
                Progress::Need(var) => {
                    let value = core.peek(var);
                    cursor.give(var, value);
                }
                Progress::Probe => {
                    let held = core.probe(cursor.probe());
                    failed = failed_values(held, cursor.probe(), name);
                    cursor.answer(held);
                }
                Progress::Ended => return Ok(failed),
            }
        }
        unreachable!()
    }

    // These values, each with its variable of the footprint, where the invariant is false on them.
    fn told_where_false(
        &self,
        core: &CoreSeat<N, T>,
        signature: &Signature,
        values: Values,
    ) -> Result<Option<Vec<(u16, i64)>>, Fault>
        requires named { has_name N.program.names signature.now.name ≡ true }
        requires meant { signature.now.footprint ≡ N.program.tests.footprint signature.now.name }
        requires filled { length values ≡ length signature.now.footprint }
        ensures why { IfOk result (λ found. IfSome found (λ pairs. IsFalseOn N.program.tests signature.now.name pairs.items)) }
        ensures same { IfOk result (λ found. IfSome found (λ pairs. map (λ pair. pair.1) pairs.items ≡ values)) }
        ensures memory { IfErr result (λ fault. fault ≡ Fault.Memory) }
    {
        let probe = Probe {
            name: signature.name,
            values,
        };
        if core.probe(&probe) {
            return Ok(None);
        }
        let vars = signature.footprint.as_slice();
        Ok(Some(paired(self.alloc, vars, probe.values.as_slice())?))
    }
}

// The signature of a name, where there is one.
fn signature_of<'a>(signatures: &'a [Signature], name: &Name) -> Option<&'a Signature>
    ensures named { IfSome result (λ signature. signature.now.name ≡ name.now) }
    ensures among { IfSome result (λ signature. Contains signatures.now signature.now) }
{
    signatures.iter().find(|signature| signature.name == *name)
}

// What a test saw that failed, where it is of the invariant of this name.
fn failed_values(held: bool, probe: &Probe, name: &Name) -> Option<Values>
    ensures values { IfSome result (λ values. (values ≡ probe.now.values) × (probe.now.name ≡ name.now)) }
    ensures failed { IfSome result (λ _. held ≡ false) }
{
    if !held && probe.name == *name {
        Some(probe.values.copy())
    } else {
        None
    }
}

// What the end of a transaction with these writes makes of a footprint, on the present values.
fn at_end<N: StoreNaming, T: Invariants + Drop>(
    core: &CoreSeat<N, T>,
    writes: &Writes,
    signature: &Signature,
) -> Values
    requires { AreBelow (length N.opening.values) signature.now.footprint }
    ensures filled { length result ≡ length signature.now.footprint }
    ensures values { map (λ n. Some n) result ≡ map (λ var. end_value (state_after_history N.opening core.now.committed).values writes.now var) signature.now.footprint }
{
    let mut values = Values::new();
    for var in signature.footprint.as_slice() {
        values.push(value_at_end(core, writes, *var));
    }
    values
}

// What it makes of one variable.
fn value_at_end<N: StoreNaming, T: Invariants + Drop>(
    core: &CoreSeat<N, T>,
    writes: &Writes,
    var: u16,
) -> i64
    requires { var < length N.opening.values }
    ensures { end_value (state_after_history N.opening core.now.committed).values writes.now var ≡ Some result }
{
    writes.get(var).unwrap_or(core.peek(var))
}

// Each variable with its value.
fn paired(alloc: Global, vars: &[u16], values: &[i64]) -> Result<Vec<(u16, i64)>, AllocError>
    requires { length values.now ≡ length vars.now }
    ensures vars { IfOk result (λ pairs. keys_of pairs.items ≡ vars.now) }
    ensures values { IfOk result (λ pairs. map (λ pair. pair.1) pairs.items ≡ values.now) }
{
    let mut pairs = Vec::with_capacity(alloc, vars.len())?;
    for at in 0..vars.len() {
        pairs.push((vars[at], values[at]))?;
    }
    Ok(pairs)
}
