// Transactions that are awaited.
ghost use Rattle.std.specs.Prelude.{◌≡◌, ◌≢◌, ◌↔◌, ◌<◌, ℕ, false, Ok, Err, IfOk, IfErr, IfSome, IfNone, OnOk, IsTrue};
ghost use Rattle.tmem_seats.specs.Flushing.{IsFlusherRefusal};
ghost use Rattle.tmem_tree.specs.Plans.{FitsSteps, FitsVariables, FitsNames, FitsSignatures};
ghost use Rattle.tmem_spine.specs.History.{count};
ghost use Rattle.tmem_seats.specs.Settling.{IsNumberedWithin, SeesMore, SettlesDurably};

use crate::front::Front;
use std::sync::Wait;
use tmem_core::Settled;
use tmem_disk::Disk;
use tmem_fault::Fault;
use tmem_invariants::Invariants;
use tmem_seats::{Pass, StoreNaming};
use tmem_tree::{Plan, StoredSteps};

impl<D: Disk + Drop, N: StoreNaming, T: Invariants + Drop, S: StoredSteps + Drop> Front<
    D,
    N,
    T,
    S,
> {
    /// Settles a plan of this front as `atomically_with_room` does, and returns once what it committed is durable, and with it all that
    /// it was made on: so no crash undoes a `Committed`, nor what a `Seen` read. (An `Aborted` or `Refused` is not awaited.) Somebody
    /// else has to flush. `Unknown` tells that the front was shut first: a transaction that changes something may then be found by the
    /// next opening, or not. After any other fault nothing was committed.
    pub fn commit_durable<R: Wait>(
        &self,
        rt: &R,
        pass: &mut Pass<N>,
        plan: &Plan,
    ) -> Result<Settled, Fault>
        requires steps { FitsSteps (S.arities self.now.steps) plan.now.tree }
        requires variables { FitsVariables self.now.vars plan.now }
        requires names { FitsNames N.program.names plan.now.tree }
        requires signatures { FitsSignatures N.program.tests plan.now }
        ensures settled { ∥ SettlesDurably N.name.start N.opening N.program plan.now.tree pass.old result pass.new ∥₁ }
        ensures no_conflict { result ≢ Err Fault.Conflict }
        ensures no_retry { result ≢ Ok Settled.Retry }
        ensures no_full { result ≢ Err Fault.Full }
    {
        let settled = self.atomically_with_room(rt, pass, plan)?;
        self.await_all(rt, pass, &settled)?;
        Ok(settled)
    }

    // Waits until what an answer committed is durable, and all that it was made on.
    fn await_all<R: Wait>(&self, rt: &R, pass: &mut Pass<N>, settled: &Settled) -> Result<(), Fault>
        ensures within { OnOk result (IsNumberedWithin (Ok settled.now) (count N.name.start pass.new.seen)) }
        ensures refused { IfErr result (λ fault. fault ≡ Fault.Unknown) }
        ensures unseen { IfErr result (λ _. ¬ IsNumberedWithin (Ok settled.now) (count N.name.start pass.new.seen)) }
        ensures sees { SeesMore pass.old pass.new }
    {
        let Some(number) = last_of(settled) else {
            return Ok(());
        };
        match self.await_durable(rt, pass, number) {
            Ok(()) => Ok(()),
            Err(_) => Err(Fault::Unknown),
        }
    }

    /// Makes durable all that is committed when it begins, batch by batch, and with it all that the pass knows: what it committed, and
    /// what its answers were made on, a `Retry`, an `Aborted` and a `Refused` too. The pass saw all that then. Where the log is full it
    /// makes a checkpoint. Answers how many are durable. Refused as `flush_with_room`.
    pub fn flush_all<R: Wait>(&self, rt: &R, pass: &mut Pass<N>) -> Result<u64, Fault>
        ensures all { OnOk result (pass.new.seen ≡ pass.new.known) }
        ensures durable { IfOk result (λ number. number ≡ count N.name.start pass.new.seen) }
        ensures refused { IfErr result IsFlusherRefusal }
        ensures sees { SeesMore pass.old pass.new }
    {
        let known = self.count(rt, pass);
        for _ in rt.forever() {
            if self.sees_all(pass, known) {
                return Ok(pass.seen());
            }
            self.flush_with_room(rt)?;
        }
        unreachable!()
    }

    // Whether the pass sees all that it knows, which are so many.
    #[tactic(auto, using(crate::proofs::Looks::sees_what_it_knows, crate::proofs::Looks::knows_as_before))]
    fn sees_all(&self, pass: &mut Pass<N>, known: u64) -> bool
        requires { known ≡ count N.name.start pass.old.known }
        ensures all { IsTrue result → pass.new.seen ≡ pass.new.known }
        ensures same { result ≡ false → pass.new.known ≡ pass.old.known }
        ensures sees { SeesMore pass.old pass.new }
    {
        let _durable = self.look(pass);
        known <= pass.seen()
    }
}

// The last transaction among what an answer committed and what it was made on.
fn last_of(settled: &Settled) -> Option<u64>
    ensures some { (n : ℕ) → IfSome result (λ number. IsNumberedWithin (Ok settled.now) n ↔ (number < n)) }
    ensures none { (n : ℕ) → IfNone result (IsNumberedWithin (Ok settled.now) n) }
{
    match settled {
        Settled::Committed { number, .. } => Some(*number),
        Settled::Seen { at, .. } => at.checked_sub(1),
        _ => None,
    }
}
