// The store that a desk serves.
ghost use Rattle.std.specs.Prelude.{◌≡◌, ◌≢◌, ◌⊎◌, ℤ, length, OnOk, IfOk, IfErr, IfSome};
ghost use Rattle.tmem_effect.specs.Prefix.{IsPrefix};
ghost use Rattle.tmem_requests.specs.Errors.{IsNoRequest};
ghost use Rattle.tmem_requests.specs.Fits.{ProposalFits};
ghost use Rattle.tmem_requests.specs.Reasons.{TellsReason};
ghost use Rattle.tmem_answers.specs.declared.answer.Answer.TheVariants.{Checkpointed, Fault as FaultOf};
ghost use Rattle.tmem_requests.specs.declared.request.RequestBody.{RequestBody};
ghost use Rattle.tmem_requests.specs.declared.request.RequestBody.TheVariants.{State, Try};
ghost use Rattle.tmem_seats.specs.Flushing.{IsCheckpointRefusal, IsFlusherRefusal};
ghost use Rattle.tmem_seats.specs.Settling.{KnowsMore, SeesMore};
ghost use Rattle.tmem_spine.specs.History.{count, longer};
ghost use Rattle.tmem_desk.specs.Asking.{AnswersAsk, IsNoPlan, IsPlanOf, SeesValues, SettlesProposal, Tries, store};
ghost use Rattle.tmem_desk.specs.Held.{asked};
ghost use Rattle.tmem_desk.specs.Serving.{IsAskedOf};

use crate::held::WaitCondition;
use crate::naming::ServedNaming;
use crate::ready::Ready;
use std::sync::Wait;
use tmem_answers::Answer;
use tmem_fault::{Cause, Fault};
use tmem_requests::{Proposal, ReadBuffer, Request, RequestError};
use tmem_seats::{LogCounts, Pass};
use tmem_tree::Tx;

/// What a desk asks of the store that it serves. A pass is one of this store: the name N in both types says so. No clause speaks of a
/// device: that what a pass saw durable outlasts a crash is the store's own promise. `Service` of `tmem_serve`, over a front, has it.
pub trait ServedStore<N: ServedNaming> {
    /// What its calls wait by.
    type Runtime: Wait;

    /// The same, for loops that go on as long as there are lines.
    fn runtime(&self) -> &Self::Runtime;

    /// Reads a line: a request that can be made of this store. Refused with why it is none, and by `Memory`.
    fn read(&self, buffer: &mut ReadBuffer, text: &[u8]) -> Result<Request, RequestError>
        ensures request { IfOk result (λ request. IsAskedOf (store N.name.start N.opening N.program N.arities N.always) request.id request.ask text.now) }
        ensures none { IfErr result (λ e. IsNoRequest e → (id : ℤ) (ask : RequestBody) → ¬ IsAskedOf (store N.name.start N.opening N.program N.arities N.always) id ask text.now) }
        ensures why { IfErr result (λ e. TellsReason (length N.opening.values) N.program.names N.always text.now e) };

    /// The plan of a transaction, or the least cause for which it is none.
    fn plan(&self, tx: Tx) -> Result<Ready<N>, Cause>
        ensures plan { IfOk result (λ ready. ready.plan.tree ≡ tx) }
        ensures fine { IfOk result (λ _. IsPlanOf (store N.name.start N.opening N.program N.arities N.always) tx) }
        ensures none { IfErr result (λ cause. IsNoPlan (store N.name.start N.opening N.program N.arities N.always) tx cause) };

    /// Makes one attempt at a request that may have to wait, and answers `None` where it has to. Refused where the store cannot go on,
    /// and by `Memory`; the pass committed nothing then.
    fn attempt(&self, pass: &mut Pass<N>, held: &WaitCondition<N>) -> Result<Option<Answer>, Fault>
        ensures tries { IfOk result (λ outcome. Tries (store N.name.start N.opening N.program N.arities N.always) (asked held.now) pass.old outcome pass.new) }
        ensures knows { IfErr result (λ _. KnowsMore pass.old pass.new) };

    /// Runs a transaction once. Refused as `attempt`.
    fn try_once(&self, pass: &mut Pass<N>, tx: Tx) -> Result<Answer, Fault>
        ensures answers { IfOk result (λ given. AnswersAsk (store N.name.start N.opening N.program N.arities N.always) (Try tx) pass.old given pass.new) }
        ensures knows { IfErr result (λ _. KnowsMore pass.old pass.new) };

    /// Settles an attempt that was made elsewhere, after a flush where there was no room. A conflict is an answer. Refused where the
    /// store cannot go on, and by `Memory`; nothing was committed then.
    fn propose(&self, pass: &mut Pass<N>, proposal: &Proposal) -> Result<Answer, Fault>
        requires { ProposalFits (length N.opening.values) N.program.names N.always proposal.now }
        ensures settles { IfOk result (λ given. SettlesProposal (store N.name.start N.opening N.program N.arities N.always) proposal.now pass.old given pass.new) }
        ensures knows { IfErr result (λ _. KnowsMore pass.old pass.new) };

    /// How many transactions there are, and these variables with their values after them. Refused where the store lacks one of them, and
    /// by `Memory`.
    fn see(&self, pass: &mut Pass<N>, vars: &[u16]) -> Result<(u64, Vec<(u16, i64)>), Fault>
        ensures sees { IfOk result (λ seen. SeesValues (store N.name.start N.opening N.program N.arities N.always) vars.now pass.old seen.0 seen.1.items pass.new) }
        ensures knows { KnowsMore pass.old pass.new };

    /// How many there are, the registered names and all values after them. Refused by `Memory`.
    fn see_all(&self, pass: &mut Pass<N>) -> Result<Answer, Fault>
        ensures answers { IfOk result (λ given. AnswersAsk (store N.name.start N.opening N.program N.arities N.always) State pass.old given pass.new) }
        ensures knows { KnowsMore pass.old pass.new };

    /// How many transactions are durable, all of which the pass then saw.
    fn look(&self, pass: &mut Pass<N>) -> u64
        ensures pass { pass.new ≡ record pass.old { seen = pass.new.seen; known = longer pass.old.known pass.new.seen } }
        ensures answer { result ≡ count N.name.start pass.new.seen }
        ensures later { IsPrefix pass.old.seen pass.new.seen }
        ensures begins { IsPrefix pass.old.known pass.new.known };

    /// Makes durable all that is committed, and with it all that the pass knows, which then saw that. Answers how many are durable.
    fn flush_all(&self, pass: &mut Pass<N>) -> Result<u64, Fault>
        ensures all { OnOk result (pass.new.seen ≡ pass.new.known) }
        ensures durable { IfOk result (λ number. number ≡ count N.name.start pass.new.seen) }
        ensures refused { IfErr result IsFlusherRefusal }
        ensures sees { SeesMore pass.old pass.new };

    /// Writes the durable state as a whole. Refused where the store cannot go on; it can where generations are spent, and that is told.
    fn write_image(&self) -> Result<Answer, Fault>
        ensures given { IfOk result (λ given. (given ≡ Checkpointed) ⊎ (given ≡ FaultOf Fault.Spent)) }
        ensures refused { IfErr result IsCheckpointRefusal }
        ensures ends { IfErr result (λ fault. fault ≢ Fault.Spent) };

    /// What was counted of its log.
    fn log(&self) -> LogCounts;

    /// Why it cannot go on, where that is known.
    fn fault(&self) -> Option<Fault>
        ensures { IfSome result (λ fault. (fault ≡ Fault.Device) ⊎ (fault ≡ Fault.Unknown)) };
}
