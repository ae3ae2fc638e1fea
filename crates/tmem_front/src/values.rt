// What a store has at one moment.
ghost use Rattle.std.specs.Prelude.{◌≡◌, ◌<◌, ◌++◌, Some, false, IfOk, IfErr, OnOk, MatchBool, length, map, nat_le, slice_get};
ghost use Rattle.std.specs.List.{All, list_any};
ghost use Rattle.tmem_effect.specs.Names.{has_name};
ghost use Rattle.tmem_effect.specs.Prefix.{IsPrefix};
ghost use Rattle.tmem_spine.specs.History.{count};
ghost use Rattle.tmem_seats.specs.Histories.{state_after_history};
ghost use Rattle.tmem_seats.specs.Settling.{KnowsMore};

use crate::front::Front;
use std::alloc::AllocError;
use std::sync::Wait;
use tmem_disk::Disk;
use tmem_fault::{Cause, Fault, Name};
use tmem_invariants::Invariants;
use tmem_seats::{CoreSeat, Pass, StoreNaming};
use tmem_tree::StoredSteps;

/// What a store has at one moment.
#[derive(Debug, Drop)]
pub struct Moment {
    /// How many transactions are committed.
    pub count: u64,
    /// The values of the variables that were asked for, in their order.
    pub values: Vec<i64>,
    /// Whether each invariant that was asked for is registered, in their order.
    pub has: Vec<bool>,
}

impl<D: Disk + Drop, N: StoreNaming, T: Invariants + Drop, S: StoredSteps + Drop> Front<
    D,
    N,
    T,
    S,
> {
    /// How many transactions are committed, all of which the pass then knows.
    pub fn count<R: Wait>(&self, rt: &R, pass: &mut Pass<N>) -> u64
        ensures count { result ≡ count N.name.start pass.new.known }
        ensures knows { KnowsMore pass.old pass.new }
    {
        self.core.lock(rt).meet(&self.spine, &mut pass.seat)
    }

    /// Whether an invariant of this name is registered, after all that the pass then knows.
    pub fn has<R: Wait>(&self, rt: &R, pass: &mut Pass<N>, name: &Name) -> bool
        ensures has { result ≡ has_name (state_after_history N.opening pass.new.known).names name.now }
        ensures knows { KnowsMore pass.old pass.new }
    {
        let mut core = self.core.lock(rt);
        let _count = core.meet(&self.spine, &mut pass.seat);
        core.has(name)
    }

    /// The values of variables at one moment, in their order: after all that the pass then knows. Refused as a `BadVariable` where the
    /// store lacks one of them, and else by `Memory`.
    pub fn values<R: Wait>(
        &self,
        rt: &R,
        pass: &mut Pass<N>,
        vars: &[u16],
    ) -> Result<Vec<i64>, Fault>
        ensures values { IfOk result (λ values. map (λ n. Some n) values.items ≡ map (λ var. slice_get (state_after_history N.opening pass.new.known).values var) vars.now) }
        ensures knows { KnowsMore pass.old pass.new }
        ensures there { IfOk result (λ _. list_any (λ var. nat_le self.now.vars var) vars.now ≡ false) }
        ensures refused { IfErr result (λ fault. MatchBool (list_any (λ var. nat_le self.now.vars var) vars.now) (fault ≡ Fault.BadPlan Cause.BadVariable) (fault ≡ Fault.Memory)) }
    {
        let Moment { values, .. } = self.moment(rt, pass, vars, &[])?;
        Ok(values)
    }

    /// What the store has at one moment: after all that the pass then knows. It tells how many transactions are committed, the values of
    /// variables, and which of some invariants are registered. Refused as `values`.
    pub fn moment<R: Wait>(
        &self,
        rt: &R,
        pass: &mut Pass<N>,
        vars: &[u16],
        names: &[Name],
    ) -> Result<Moment, Fault>
        ensures count { IfOk result (λ moment. moment.count ≡ count N.name.start pass.new.known) }
        ensures values { IfOk result (λ moment. map (λ n. Some n) moment.values.items ≡ map (λ var. slice_get (state_after_history N.opening pass.new.known).values var) vars.now) }
        ensures has { IfOk result (λ moment. moment.has.items ≡ map (λ name. has_name (state_after_history N.opening pass.new.known).names name) names.now) }
        ensures knows { KnowsMore pass.old pass.new }
        ensures there { IfOk result (λ _. list_any (λ var. nat_le self.now.vars var) vars.now ≡ false) }
        ensures refused { IfErr result (λ fault. MatchBool (list_any (λ var. nat_le self.now.vars var) vars.now) (fault ≡ Fault.BadPlan Cause.BadVariable) (fault ≡ Fault.Memory)) }
    {
        if has_other(vars, self.vars) {
            return Err(Fault::BadPlan(Cause::BadVariable));
        }
        self.moment_of(rt, pass, vars, names)
    }

    // The same where each variable is there: what takes memory is made before the core's lock is taken.
    fn moment_of<R: Wait>(
        &self,
        rt: &R,
        pass: &mut Pass<N>,
        vars: &[u16],
        names: &[Name],
    ) -> Result<Moment, Fault>
        requires { All (λ var. var < length N.opening.values) vars.now }
        ensures count { IfOk result (λ moment. moment.count ≡ count N.name.start pass.new.known) }
        ensures values { IfOk result (λ moment. map (λ n. Some n) moment.values.items ≡ map (λ var. slice_get (state_after_history N.opening pass.new.known).values var) vars.now) }
        ensures has { IfOk result (λ moment. moment.has.items ≡ map (λ name. has_name (state_after_history N.opening pass.new.known).names name) names.now) }
        ensures knows { KnowsMore pass.old pass.new }
        ensures memory { IfErr result (λ fault. fault ≡ Fault.Memory) }
    {
        let mut values = Vec::with_capacity(self.alloc, vars.len())?;
        let mut has = Vec::with_capacity(self.alloc, names.len())?;
        let mut held = self.core.lock(rt);
        let core = &mut *held;
        let count = core.meet(&self.spine, &mut pass.seat);
        core.peek_all(vars, &mut values)?;
        push_registered(core, names, &mut has)?;
        Ok(Moment { count, values, has })
    }
}

// Pushes whether each of these names is registered, in their order.
fn push_registered<N: StoreNaming, T: Invariants + Drop>(
    core: &CoreSeat<N, T>,
    names: &[Name],
    has: &mut Vec<bool>,
) -> Result<(), AllocError>
    ensures { OnOk result (has.new.items ≡ has.old.items ++ map (λ name. has_name (state_after_history N.opening core.now.committed).names name) names.now) }
{
    for name in names {
        let is_there = core.has(name);
        has.push(is_there)?;
    }
    Ok(())
}

// Whether one of them is not among the first so many variables.
fn has_other(vars: &[u16], most: u16) -> bool
    ensures { result ≡ list_any (λ var. nat_le most var) vars.now }
{
    vars.iter().any(|var| *var >= most)
}
