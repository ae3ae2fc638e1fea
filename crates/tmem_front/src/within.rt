// The calls that wait for no longer than a time.
ghost use Rattle.std.specs.Prelude.{◌≡◌, ◌≢◌, ◌<◌, ◌≤◌, Ok, Err, IfErr};
ghost use Rattle.tmem_effect.specs.Prefix.{IsPrefix};
ghost use Rattle.tmem_spine.specs.History.{count};
ghost use Rattle.tmem_tree.specs.Plans.{FitsSteps, FitsVariables, FitsNames, FitsSignatures};
ghost use Rattle.tmem_seats.specs.Settling.{SettlesAtLast};

use crate::front::Front;
use crate::patience::Limited;
use std::rt::Clock;
use std::sync::Wait;
use std::time::Duration;
use tmem_core::Settled;
use tmem_disk::Disk;
use tmem_fault::Fault;
use tmem_invariants::Invariants;
use tmem_seats::{Pass, StoreNaming};
use tmem_tree::{Plan, StoredSteps};

/// How a wait ended that has a limit.
#[derive(Clone, Copy, Debug, PartialEq, Eq)]
pub enum Awaited {
    /// What was awaited is durable.
    Durable,
    /// The time was over first.
    TimedOut,
}

impl<D: Disk + Drop, N: StoreNaming, T: Invariants + Drop, S: StoredSteps + Drop> Front<
    D,
    N,
    T,
    S,
> {
    /// As `atomically`, for no longer than a time: `Retry` tells that the time was over, and that the last attempt, which was made
    /// after that, retried. Nothing is claimed of when that is answered. A clock that cannot be read ends the time. It is read under the
    /// core's lock too.
    pub fn atomically_within<R: Wait + Clock>(
        &self,
        rt: &R,
        pass: &mut Pass<N>,
        plan: &Plan,
        limit: Duration,
    ) -> Result<Settled, Fault>
        requires steps { FitsSteps (S.arities self.now.steps) plan.now.tree }
        requires variables { FitsVariables self.now.vars plan.now }
        requires names { FitsNames N.program.names plan.now.tree }
        requires signatures { FitsSignatures N.program.tests plan.now }
        ensures settled { SettlesAtLast N.name.start N.opening N.program plan.now.tree pass.old result pass.new }
        ensures no_conflict { result ≢ Err Fault.Conflict }
    {
        self.run(rt, &Limited::new(rt, limit), pass, plan, false)
    }

    /// As `await_durable`, for no longer than a time. Nothing is claimed of when `TimedOut` is answered. A clock that cannot be read ends the time.
    pub fn await_durable_within<R: Wait + Clock>(
        &self,
        rt: &R,
        pass: &mut Pass<N>,
        number: u64,
        limit: Duration,
    ) -> Result<Awaited, Fault>
        ensures durable { result ≡ Ok Awaited.Durable → number < count N.name.start pass.new.seen }
        ensures unseen { result ≢ Ok Awaited.Durable → count N.name.start pass.new.seen ≤ number }
        ensures refused { IfErr result (λ fault. fault ≡ Fault.Closed) }
        ensures pass { pass.new ≡ record pass.old { seen = pass.new.seen; known = pass.new.known } }
        ensures later { IsPrefix pass.old.seen pass.new.seen × IsPrefix pass.old.known pass.new.known }
    {
        let patience = Limited::new(rt, limit);
        if number < self.look_again(pass, number) {
            return Ok(Awaited::Durable);
        }
        let mut core = self.wait_for_flush(rt, &patience, self.core.lock(rt), number);
        let has_ended = core.has_flushed(number);
        drop(core);
        let durable = self.look(pass);
        if number < durable {
            Ok(Awaited::Durable)
        } else if has_ended {
            Err(Fault::Closed)
        } else {
            Ok(Awaited::TimedOut)
        }
    }
}
