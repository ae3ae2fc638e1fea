// How transactions are settled for a desk. Nobody else uses the store while it is served, so a conflict ends.
ghost use Rattle.std.specs.Prelude.{◌≡◌, ◌≢◌, Ok, Err, OnOk, IfOk, IfErr};
ghost use Rattle.tmem_answers.specs.declared.answer.Answer.TheVariants.{Checkpointed, Fault as FaultOf};
ghost use Rattle.tmem_seats.specs.Settling.{KnowsMore};
ghost use Rattle.tmem_desk.specs.Asking.{SettlesTx, TellsEnding, store};

use crate::service::Service;
use std::sync::Wait;
use tmem_answers::Answer;
use tmem_core::Settled;
use tmem_desk::{Ready, ServedNaming};
use tmem_disk::Disk;
use tmem_fault::Fault;
use tmem_front::Pass;
use tmem_invariants::Invariants;
use tmem_tree::StoredSteps;

impl<R: Wait, D: Disk + Drop, N: ServedNaming, T: Invariants + Drop, S: StoredSteps + Drop> Service<
    '_,
    R,
    D,
    N,
    T,
    S,
> {
    /// Settles a plan: it is attempted again where it met another value, and after a flush where there was no room. Refused where the
    /// store cannot go on, and by `Memory`; nothing was committed then.
    pub(crate) fn settle(&self, pass: &mut Pass<N>, ready: &Ready<N>) -> Result<Settled, Fault>
        ensures settles { IfOk result (λ settled. SettlesTx (store N.name.start N.opening N.program N.arities N.always) ready.now.plan.tree pass.old settled pass.new) }
        ensures knows { IfErr result (λ _. KnowsMore pass.old pass.new) }
    {
        for _ in self.rt.forever() {
            match self.front.try_atomically(self.rt, pass, &ready.plan) {
                Ok(settled) => return Ok(settled),
                Err(Fault::Conflict) => {}
                Err(Fault::Full) => {
                    self.front.flush_with_room(self.rt)?;
                }
                Err(fault) => return Err(fault),
            }
        }
        unreachable!()
    }

    /// How it is told how a plan ended: where an invariant refused it, with the values that the failing test saw. Where there is no memory
    /// for these, it is told without them.
    pub(crate) fn told_ending(
        &self,
        pass: &mut Pass<N>,
        ready: &Ready<N>,
        settled: Settled,
    ) -> Answer
        ensures tells { TellsEnding (store N.name.start N.opening N.program N.arities N.always) settled result }
        ensures knows { KnowsMore pass.old pass.new }
    {
        let Settled::Refused(name) = settled else {
            return Answer::Settled(settled);
        };
        match self.front.why_refused(self.rt, pass, &ready.plan, &name) {
            Ok(Some(because)) => Answer::Refused { name, because },
            Ok(None) | Err(_) => Answer::Settled(settled),
        }
    }
}

/// How it is told what a checkpoint was answered. Where it was refused otherwise than by `Spent`, the store cannot go on.
pub(crate) fn told_image(written: Result<(), Fault>) -> Result<Answer, Fault>
    ensures made { OnOk written (result ≡ Ok Checkpointed) }
    ensures spent { written ≡ Err Fault.Spent → result ≡ Ok (FaultOf Fault.Spent) }
    ensures other { IfErr written (λ fault. fault ≢ Fault.Spent → result ≡ Err fault) }
{
    match written {
        Ok(()) => Ok(Answer::Checkpointed),
        Err(Fault::Spent) => Ok(Answer::Fault(Fault::Spent)),
        Err(fault) => Err(fault),
    }
}
