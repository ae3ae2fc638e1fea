// The store that a desk serves.
ghost use Rattle.std.specs.Prelude.{◌≡◌, length};

use crate::looking::{first_vars, paired, registered};
use crate::settling::told_image;
use std::alloc::Global;
use std::marker::PhantomData;
use std::sync::Wait;
use tmem_answers::Answer;
use tmem_desk::{Ready, ServedNaming, ServedStore, WaitCondition};
use tmem_disk::Disk;
use tmem_fault::{Cause, Fault, Name};
use tmem_front::{Front, LogCounts, Moment, Pass};
use tmem_invariants::Invariants;
use tmem_requests::{Proposal, ReadBuffer, Request, RequestError, proposed_attempt};
use tmem_tree::{StoredSteps, Tx};

/// The store that a desk serves: its front, lent for as long as it does, and the numbers and names that requests are held to.
#[derive(Drop)]
pub struct Service<'a, R, D: Disk, N: ServedNaming, T: Invariants, S: StoredSteps> {
    pub(crate) rt: &'a R,
    pub(crate) alloc: Global,
    pub(crate) front: &'a Front<D, N, T, S>,
    pub(crate) vars: u16,
    // of all invariants, in the order of their table, and of those that always hold
    pub(crate) names: &'a [Name],
    pub(crate) always: &'a [Name],

    ghost arities: { S.arities front.now.steps ≡ N.arities },
    ghost over: { vars ≡ length N.opening.values },
    ghost named: { names.now ≡ N.program.names },
    ghost kept: { always.now ≡ N.always },
}

impl<'a, R, D: Disk + Drop, N: ServedNaming, T: Invariants + Drop, S: StoredSteps + Drop> Service<
    'a,
    R,
    D,
    N,
    T,
    S,
> {
    /// The store of a front, of so many variables, with the names of its invariants, in the order of their table, and of those that always
    /// hold.
    pub fn new(
        rt: &'a R,
        alloc: Global,
        front: &'a Front<D, N, T, S>,
        vars: u16,
        names: &'a [Name],
        always: &'a [Name],
    ) -> Service<'a, R, D, N, T, S>
        requires arities { S.arities front.now.steps ≡ N.arities }
        requires over { vars ≡ length N.opening.values }
        requires named { names.now ≡ N.program.names }
        requires kept { always.now ≡ N.always }
    {
        Service {
            rt,
            alloc,
            front,
            vars,
            names,
            always,
        }
    }
}

impl<
    R: Wait,
    D: Disk + Drop,
    N: ServedNaming,
    T: Invariants + Drop,
    S: StoredSteps + Drop,
> ServedStore<N> for Service<'_, R, D, N, T, S> {
    type Runtime = R;

    fn runtime(&self) -> &R {
        self.rt
    }

    fn read(&self, buffer: &mut ReadBuffer, text: &[u8]) -> Result<Request, RequestError> {
        let request = Request::read(self.alloc, buffer, text)?;
        match request.fits(self.alloc, self.vars, self.names, self.always) {
            Ok(()) => Ok(request),
            Err(refusal) => Err(RequestError::NoRequest(refusal)),
        }
    }

    fn plan(&self, tx: Tx) -> Result<Ready<N>, Cause> {
        match self.front.plan(tx) {
            Ok(plan) => Ok(Ready {
                plan,
                of: PhantomData,
            }),
            Err(Fault::BadPlan(cause)) => Err(cause),
            Err(_) => unreachable!(),
        }
    }

    fn attempt(
        &self,
        pass: &mut Pass<N>,
        held: &WaitCondition<N>,
    ) -> Result<Option<Answer>, Fault> {
        match held {
            WaitCondition::Plan(ready) => self.attempt_plan(pass, ready),
            WaitCondition::Change(reads) => self.attempt_change(pass, reads),
        }
    }

    fn try_once(&self, pass: &mut Pass<N>, tx: Tx) -> Result<Answer, Fault> {
        match self.plan(tx) {
            Ok(ready) => {
                let settled = self.settle(pass, &ready)?;
                Ok(self.told_ending(pass, &ready, settled))
            }
            Err(cause) => Ok(Answer::Fault(Fault::BadPlan(cause))),
        }
    }

    fn propose(&self, pass: &mut Pass<N>, proposal: &Proposal) -> Result<Answer, Fault> {
        let attempt = proposed_attempt(self.alloc, proposal)?;
        self.settle_attempt(pass, &attempt)
    }

    fn see(&self, pass: &mut Pass<N>, vars: &[u16]) -> Result<(u64, Vec<(u16, i64)>), Fault> {
        let Moment { count, values, .. } = self.front.moment(self.rt, pass, vars, &[])?;
        let pairs = paired(self.alloc, vars, &values)?;
        Ok((count, pairs))
    }

    fn see_all(&self, pass: &mut Pass<N>) -> Result<Answer, Fault> {
        let vars = first_vars(self.alloc, self.vars)?;
        let Moment { count, values, has } = self.front.moment(self.rt, pass, &vars, self.names)?;
        let names = registered(self.alloc, self.names, &has)?;
        Ok(Answer::State {
            count,
            names,
            values,
        })
    }

    fn look(&self, pass: &mut Pass<N>) -> u64 {
        self.front.look(pass)
    }

    fn flush_all(&self, pass: &mut Pass<N>) -> Result<u64, Fault> {
        self.front.flush_all(self.rt, pass)
    }

    fn write_image(&self) -> Result<Answer, Fault> {
        told_image(self.front.checkpoint(self.rt))
    }

    fn log(&self) -> LogCounts {
        self.front.log(self.rt)
    }

    fn fault(&self) -> Option<Fault> {
        self.front.fault(self.rt)
    }
}
