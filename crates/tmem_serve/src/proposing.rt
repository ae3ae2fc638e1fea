// Attempts that were made elsewhere.
ghost use Rattle.std.specs.Prelude.{length, IfOk, IfErr, IfSome, IsNone};
ghost use Rattle.tmem_tentative.specs.Fits.{IsForVariables, IsForNames};
ghost use Rattle.tmem_requests.specs.Attempts.{IsAttemptOf};
ghost use Rattle.tmem_requests.specs.declared.proposal.Proposal.{Proposal};
ghost use Rattle.tmem_seats.specs.Settling.{KnowsMore};
ghost use Rattle.tmem_desk.specs.Asking.{SettlesProposal, TellsEnding, TellsEnd, store};

use crate::service::Service;
use std::sync::Wait;
use tmem_answers::Answer;
use tmem_core::Settled;
use tmem_desk::ServedNaming;
use tmem_disk::Disk;
use tmem_fault::Fault;
use tmem_front::Pass;
use tmem_invariants::Invariants;
use tmem_tentative::Attempt;
use tmem_tree::StoredSteps;

impl<R: Wait, D: Disk + Drop, N: ServedNaming, T: Invariants + Drop, S: StoredSteps + Drop> Service<
    '_,
    R,
    D,
    N,
    T,
    S,
> {
    // Settles an attempt, after a flush where there was no room.
    pub(crate) fn settle_attempt(
        &self,
        pass: &mut Pass<N>,
        attempt: &Attempt,
    ) -> Result<Answer, Fault>
        requires variables { IsForVariables (length N.opening.values) attempt.now }
        requires names { IsForNames N.program.names attempt.now }
        ensures settles { IfOk result (λ given. (proposal : Proposal) → IsAttemptOf proposal attempt.now → SettlesProposal (store N.name.start N.opening N.program N.arities N.always) proposal pass.old given pass.new) }
        ensures knows { IfErr result (λ _. KnowsMore pass.old pass.new) }
    {
        for _ in self.rt.forever() {
            if let Some(answer) = self.settle_or_flush(pass, attempt)? {
                return Ok(answer);
            }
        }
        unreachable!()
    }

    // Settles an attempt once. `None` where there was no room, and a flush made some.
    fn settle_or_flush(
        &self,
        pass: &mut Pass<N>,
        attempt: &Attempt,
    ) -> Result<Option<Answer>, Fault>
        requires variables { IsForVariables (length N.opening.values) attempt.now }
        requires names { IsForNames N.program.names attempt.now }
        ensures settles { IfOk result (λ outcome. IfSome outcome (λ given. (proposal : Proposal) → IsAttemptOf proposal attempt.now → SettlesProposal (store N.name.start N.opening N.program N.arities N.always) proposal pass.old given pass.new)) }
        ensures none { IfOk result (λ outcome. IsNone outcome → KnowsMore pass.old pass.new) }
        ensures knows { IfErr result (λ _. KnowsMore pass.old pass.new) }
    {
        match self.front.settle(self.rt, pass, attempt) {
            Ok(settled) => Ok(Some(self.told_ending_of(pass, attempt, settled))),
            Err(Fault::Conflict) => Ok(Some(Answer::Fault(Fault::Conflict))),
            Err(Fault::Full) => {
                self.front.flush_with_room(self.rt)?;
                Ok(None)
            }
            Err(fault) => Err(fault),
        }
    }

    // How it is told how an attempt ended that was made elsewhere: where an invariant refused it, with the values that it has at the end.
    // Where there is no memory for these, it is told without them.
    fn told_ending_of(&self, pass: &mut Pass<N>, attempt: &Attempt, settled: Settled) -> Answer
        ensures tells { TellsEnding (store N.name.start N.opening N.program N.arities N.always) settled result }
        ensures end { TellsEnd (store N.name.start N.opening N.program N.arities N.always) attempt.now result pass.new }
        ensures knows { KnowsMore pass.old pass.new }
    {
        let Settled::Refused(name) = settled else {
            return Answer::Settled(settled);
        };
        match self
            .front
            .why_attempt_refused(self.rt, pass, attempt, &name)
        {
            Ok(Some(because)) => Answer::Refused { name, because },
            Ok(None) | Err(_) => Answer::Settled(settled),
        }
    }
}
