// Requests that may have to wait.
ghost use Rattle.std.specs.Prelude.{◌≡◌, ◌≢◌, false, IsTrue, IfOk, IfErr};
ghost use Rattle.std.specs.Map.{keys_of};
ghost use Rattle.tmem_seats.specs.Settling.{KnowsMore};
ghost use Rattle.tmem_tree.specs.declared.settled.Settled.TheVariants.{Retry};
ghost use Rattle.tmem_requests.specs.declared.request.RequestBody.TheVariants.{Do, Changed};
ghost use Rattle.tmem_desk.specs.Asking.{Tries, store};

use crate::looking::vars_of;
use crate::service::Service;
use std::sync::Wait;
use tmem_answers::Answer;
use tmem_core::Settled;
use tmem_desk::{Ready, ServedNaming, ServedStore};
use tmem_disk::Disk;
use tmem_fault::Fault;
use tmem_front::Pass;
use tmem_invariants::Invariants;
use tmem_tree::StoredSteps;

impl<R: Wait, D: Disk + Drop, N: ServedNaming, T: Invariants + Drop, S: StoredSteps + Drop> Service<
    '_,
    R,
    D,
    N,
    T,
    S,
> {
    // A transaction waits as long as it retries.
    pub(crate) fn attempt_plan(
        &self,
        pass: &mut Pass<N>,
        ready: &Ready<N>,
    ) -> Result<Option<Answer>, Fault>
        ensures tries { IfOk result (λ outcome. Tries (store N.name.start N.opening N.program N.arities N.always) (Do ready.now.plan.tree) pass.old outcome pass.new) }
        ensures knows { IfErr result (λ _. KnowsMore pass.old pass.new) }
    {
        let settled = self.settle(pass, ready)?;
        if is_retry(&settled) {
            return Ok(None);
        }
        let answer = self.told_ending(pass, ready, settled);
        Ok(Some(answer))
    }

    // A request for a change waits as long as each value is the one that it tells.
    pub(crate) fn attempt_change(
        &self,
        pass: &mut Pass<N>,
        reads: &Vec<(u16, i64)>,
    ) -> Result<Option<Answer>, Fault>
        ensures tries { IfOk result (λ outcome. Tries (store N.name.start N.opening N.program N.arities N.always) (Changed reads.now) pass.old outcome pass.new) }
        ensures knows { IfErr result (λ _. KnowsMore pass.old pass.new) }
    {
        let vars = vars_of(self.alloc, reads)?;
        let (count, values) = self.see(pass, &vars)?;
        if are_same(&values, reads) {
            Ok(None)
        } else {
            Ok(Some(Answer::Values { count, values }))
        }
    }
}

// Whether a transaction asks to be run again.
fn is_retry(settled: &Settled) -> bool
    ensures retry { IsTrue result → settled.now ≡ Retry }
    ensures other { result ≡ false → settled.now ≢ Retry }
{
    match settled {
        Settled::Retry => true,
        _ => false,
    }
}

// Whether these are the same variables with the same values.
fn are_same(values: &[(u16, i64)], reads: &[(u16, i64)]) -> bool
    ensures same { IsTrue result → values.now ≡ reads.now }
    ensures other { result ≡ false → values.now ≢ reads.now }
{
    values == reads
}
