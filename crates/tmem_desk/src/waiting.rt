// Those that wait are tried again.
ghost use Rattle.std.specs.Prelude.{OnOk, IfErr};
ghost use Rattle.tmem_desk.specs.Asking.{store};
ghost use Rattle.tmem_desk.specs.Failing.{GoesBehind, OrMemory, TriesUntil};
ghost use Rattle.tmem_desk.specs.Held.{desk_view};
ghost use Rattle.tmem_desk.specs.Serving.{TriesNext, Round, Wakes};

use crate::desk::Desk;
use crate::naming::ServedNaming;
use crate::served::ServedStore;
use std::sync::Wait;
use tmem_fault::Fault;

impl<N: ServedNaming> Desk<N> {
    // Tries those that wait again, until a round answers none of them.
    pub(crate) fn wake<V: ServedStore<N>>(&mut self, service: &V) -> Result<(), Fault>
        ensures ok { OnOk result (Wakes (store N.name.start N.opening N.program N.arities N.always) (desk_view self.old) (desk_view self.new)) }
        ensures err { IfErr result (λ f. OrMemory f (TriesUntil (store N.name.start N.opening N.program N.arities N.always) (desk_view self.old) (desk_view self.new))) }
    {
        for _ in service.runtime().forever() {
            let told = self.told.len();
            self.try_each(service)?;
            if self.told.len() == told {
                return Ok(());
            }
        }
        unreachable!()
    }

    // Tries each of those that wait once.
    fn try_each<V: ServedStore<N>>(&mut self, service: &V) -> Result<(), Fault>
        ensures ok { OnOk result (Round (store N.name.start N.opening N.program N.arities N.always) (desk_view self.old) (desk_view self.new)) }
        ensures err { IfErr result (λ f. OrMemory f (TriesUntil (store N.name.start N.opening N.program N.arities N.always) (desk_view self.old) (desk_view self.new))) }
    {
        for _turn in 0..self.waiting.len() {
            self.try_first(service)?;
        }
        Ok(())
    }

    // Tries the first of those that wait, if one does. Where it has to wait on, it goes behind the others.
    fn try_first<V: ServedStore<N>>(&mut self, service: &V) -> Result<(), Fault>
        ensures ok { OnOk result (TriesNext (store N.name.start N.opening N.program N.arities N.always) (desk_view self.old) (desk_view self.new)) }
        ensures err { IfErr result (λ f. OrMemory f (GoesBehind (desk_view self.old) (desk_view self.new))) }
    {
        let Some(one) = self.waiting.pop_front() else {
            return Ok(());
        };
        match service.attempt(&mut self.pass, &one.held) {
            Ok(Some(answer)) => self.tell(one.id, answer),
            Ok(None) => {
                self.waiting.push_back(one)?;
                Ok(())
            }
            Err(fault) => {
                self.waiting.push_back(one)?;
                Err(fault)
            }
        }
    }
}
