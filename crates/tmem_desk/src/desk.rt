// The desk: what each line is answered.
ghost use Rattle.std.specs.Prelude.{◌≡◌, [], ◌∷◌, length, None, Some, position, OnOk, IsErr, IfOk, IfErr};
ghost use Rattle.std.specs.Ordering.{int_eq};
ghost use Rattle.tmem_requests.specs.Fits.{FitsStore};
ghost use Rattle.tmem_requests.specs.declared.request.RequestBody.TheVariants.{Do};
ghost use Rattle.tmem_desk.specs.Asking.{store};
ghost use Rattle.tmem_desk.specs.Failing.{AnswersLine, AnswersOnly, LearnsOnly, OrMemory, PassesShort};
ghost use Rattle.tmem_desk.specs.Held.{asked, desk_view, empty_desk};
ghost use Rattle.tmem_desk.specs.Serving.{Takes, MayWait, TakesShort, RefusesLong, tells, tried, cancelled};
ghost use Rattle.tmem_desk.specs.Told.{answer_told, refused};

use crate::counts::AnswerCounts;
use crate::held::{WaitCondition, WaitingRequest};
use crate::keeping::Kept;
use crate::naming::ServedNaming;
use crate::served::ServedStore;
use crate::told::Told;
use std::alloc::Global;
use std::collections::VecDeque;
use tmem_answers::{Answer, AnswerLine};
use tmem_fault::Fault;
use tmem_lines::MAX_LINE_BYTES;
use tmem_requests::{
    NoRequest, NoRequestLine, ReadBuffer, RequestBody, RequestError, RequestFlaw, RequestPlace,
};
use tmem_seats::Pass;
use tmem_tree::Tx;

/// The most requests that may wait.
pub const MOST_WAITING: usize = 1024;

/// Who answers the requests of one client, one after another.
#[derive(Drop)]
pub struct Desk<N: ServedNaming> {
    pub(crate) alloc: Global,
    pub(crate) pass: Pass<N>,
    // the requests that wait, in the order in which they came
    pub(crate) waiting: VecDeque<WaitingRequest<N>>,
    // the transactions that are kept
    pub(crate) kept: Vec<Kept<N>>,
    // what is told once it is durable
    pub(crate) told: Vec<Told>,
    // how many lines have come
    pub(crate) lines: u64,
    // what was counted of the answers
    pub(crate) counts: AnswerCounts,
    // what lines are read over
    pub(crate) buffer: ReadBuffer,
}

impl<N: ServedNaming> Desk<N> {
    /// A desk that has read nothing yet, with a pass of the store that it serves.
    pub fn new(alloc: Global, pass: Pass<N>) -> Desk<N>
        ensures { desk_view result ≡ empty_desk pass }
    {
        Desk {
            alloc,
            pass,
            waiting: VecDeque::new(alloc),
            kept: Vec::new(alloc),
            told: Vec::new(alloc),
            lines: 0,
            counts: AnswerCounts::new(),
            buffer: ReadBuffer::new(alloc),
        }
    }

    // Tells what a request is answered.
    pub(crate) fn tell(&mut self, id: i64, answer: Answer) -> Result<(), Fault>
        ensures ok { OnOk result (desk_view self.new ≡ tells (desk_view self.old) (answer_told id answer ∷ [])) }
        ensures err { IfErr result (λ f. f ≡ Fault.Memory) }
    {
        self.counts.note(&answer);
        self.told.push(Told::Answer(AnswerLine { id, answer }))?;
        Ok(())
    }

    // Tells a request why the store cannot go on.
    fn tell_fault(&mut self, id: i64, fault: &Fault) -> Result<(), Fault>
        ensures never { IsErr result }
        ensures err { IfErr result (λ f. OrMemory f ((f ≡ fault.now) × (desk_view self.new ≡ tells (desk_view self.old) (answer_told id (Answer.Fault fault.now) ∷ [])))) }
    {
        self.tell(id, Answer::Fault(*fault))?;
        Err(*fault)
    }

    // Tells what a request is answered, unless the store cannot go on.
    fn tell_or_fail(&mut self, id: i64, answered: Result<Answer, Fault>) -> Result<(), Fault>
        ensures ok { IfOk answered (λ answer. OnOk result (desk_view self.new ≡ tells (desk_view self.old) (answer_told id answer ∷ []))) }
        ensures fails { IfErr answered (λ _. IsErr result) }
        ensures err { IfErr result (λ f. OrMemory f (IsErr answered × (desk_view self.new ≡ desk_view self.old))) }
    {
        self.tell(id, answered?)
    }

    // Tells that the last line is no request.
    fn refuse(&mut self, refusal: NoRequest) -> Result<(), Fault>
        ensures ok { OnOk result (desk_view self.new ≡ tells (desk_view self.old) (refused self.old.lines refusal ∷ [])) }
        ensures err { IfErr result (λ f. f ≡ Fault.Memory) }
    {
        let line = self.lines;
        self.told
            .push(Told::NoRequest(NoRequestLine { line, refusal }))?;
        Ok(())
    }

    // Lets a request wait, unless as many wait as may.
    fn wait(&mut self, id: i64, held: WaitCondition<N>) -> Result<(), Fault>
        ensures ok { OnOk result (desk_view self.new ≡ tried id (asked held) None (desk_view self.old)) }
        ensures err { IfErr result (λ f. f ≡ Fault.Memory) }
    {
        if self.waiting.len() >= MOST_WAITING {
            return self.tell(id, Answer::Fault(Fault::Full));
        }
        self.waiting.push_back(WaitingRequest { id, held })?;
        Ok(())
    }
}

impl<N: ServedNaming> Desk<N> {
    // Takes a line, without its line break.
    pub(crate) fn take_line<V: ServedStore<N>>(
        &mut self,
        service: &V,
        text: &[u8],
    ) -> Result<(), Fault>
        ensures ok { OnOk result (TakesShort (store N.name.start N.opening N.program N.arities N.always) text.now (desk_view self.old) (desk_view self.new)) }
        ensures err { IfErr result (λ f. OrMemory f (AnswersLine (store N.name.start N.opening N.program N.arities N.always) text.now (desk_view self.old) (desk_view self.new))) }
    {
        self.lines = self.lines.wrapping_add(1);
        match service.read(&mut self.buffer, text) {
            Ok(request) => self.take_or_fail(service, request.id, request.ask),
            Err(RequestError::NoRequest(refusal)) => self.refuse(refusal),
            Err(RequestError::Memory(_)) => Err(Fault::Memory),
        }
    }

    // Takes a line, and runs nothing.
    pub(crate) fn pass_line_over<V: ServedStore<N>>(
        &mut self,
        service: &V,
        text: &[u8],
    ) -> Result<(), Fault>
        ensures ok { OnOk result (PassesShort (store N.name.start N.opening N.program N.arities N.always) text.now (desk_view self.old) (desk_view self.new)) }
        ensures err { IfErr result (λ f. f ≡ Fault.Memory) }
    {
        self.lines = self.lines.wrapping_add(1);
        match service.read(&mut self.buffer, text) {
            Ok(request) => self.tell(request.id, Answer::Fault(Fault::Closed)),
            Err(RequestError::NoRequest(refusal)) => self.refuse(refusal),
            Err(RequestError::Memory(_)) => Err(Fault::Memory),
        }
    }

    // Takes a line that is too long.
    pub(crate) fn take_long_line(&mut self) -> Result<(), Fault>
        ensures ok { OnOk result (RefusesLong (desk_view self.old) (desk_view self.new)) }
        ensures err { IfErr result (λ f. f ≡ Fault.Memory) }
    {
        self.lines = self.lines.wrapping_add(1);
        self.refuse(NoRequest {
            why: RequestFlaw::TooLong,
            at: RequestPlace::Column(MAX_LINE_BYTES as u64 + 1),
        })
    }

    // Takes a request. Where the store cannot go on, that is its answer.
    fn take_or_fail<V: ServedStore<N>>(
        &mut self,
        service: &V,
        id: i64,
        ask: RequestBody,
    ) -> Result<(), Fault>
        requires { FitsStore (length N.opening.values) N.program.names N.always ask }
        ensures ok { OnOk result (Takes (store N.name.start N.opening N.program N.arities N.always) id ask (desk_view self.old) (desk_view self.new)) }
        ensures err { IfErr result (λ f. OrMemory f (AnswersOnly id (desk_view self.old) (desk_view self.new))) }
    {
        match self.take(service, id, ask) {
            Ok(()) => Ok(()),
            Err(fault) => self.tell_fault(id, &fault),
        }
    }

    // Takes a request.
    fn take<V: ServedStore<N>>(
        &mut self,
        service: &V,
        id: i64,
        ask: RequestBody,
    ) -> Result<(), Fault>
        requires { FitsStore (length N.opening.values) N.program.names N.always ask }
        ensures ok { OnOk result (Takes (store N.name.start N.opening N.program N.arities N.always) id ask (desk_view self.old) (desk_view self.new)) }
        ensures err { IfErr result (λ f. OrMemory f (LearnsOnly (desk_view self.old) (desk_view self.new))) }
    {
        match ask {
            RequestBody::Do(tx) => self.take_do(service, id, tx),
            RequestBody::Changed(reads) => self.take_held(
                service,
                id,
                WaitCondition::Change(reads),
            ),
            RequestBody::Cancel(other) => self.cancel(id, other),
            RequestBody::Try(tx) => {
                let answered = service.try_once(&mut self.pass, tx);
                self.tell_or_fail(id, answered)
            }
            RequestBody::Get(vars) => {
                let (count, values) = service.see(&mut self.pass, &vars)?;
                self.tell(id, Answer::Values { count, values })
            }
            RequestBody::Settle(proposal) => {
                let answered = service.propose(&mut self.pass, &proposal);
                self.tell_or_fail(id, answered)
            }
            RequestBody::Look => {
                let number = service.look(&mut self.pass);
                self.tell(id, Answer::Durable(number))
            }
            RequestBody::State => {
                let answered = service.see_all(&mut self.pass);
                self.tell_or_fail(id, answered)
            }
            RequestBody::Checkpoint => {
                let answered = service.write_image();
                self.tell_or_fail(id, answered)
            }
            RequestBody::Keep(word, tx) => self.keep(service, id, word, tx),
            RequestBody::Run(word, numbers) => self.run_kept(service, id, &word, &numbers),
            RequestBody::Stats => self.tell_stats(service, id),
        }
    }

    // Takes a transaction that may wait.
    fn take_do<V: ServedStore<N>>(&mut self, service: &V, id: i64, tx: Tx) -> Result<(), Fault>
        ensures ok { OnOk result (Takes (store N.name.start N.opening N.program N.arities N.always) id (Do tx) (desk_view self.old) (desk_view self.new)) }
        ensures err { IfErr result (λ f. OrMemory f (LearnsOnly (desk_view self.old) (desk_view self.new))) }
    {
        match service.plan(tx) {
            Ok(ready) => self.take_held(service, id, WaitCondition::Plan(ready)),
            Err(cause) => self.tell(id, Answer::Fault(Fault::BadPlan(cause))),
        }
    }

    // Takes what may wait: it is tried once.
    pub(crate) fn take_held<V: ServedStore<N>>(
        &mut self,
        service: &V,
        id: i64,
        held: WaitCondition<N>,
    ) -> Result<(), Fault>
        ensures ok { OnOk result (MayWait (store N.name.start N.opening N.program N.arities N.always) id (asked held) (desk_view self.old) (desk_view self.new)) }
        ensures err { IfErr result (λ f. OrMemory f (LearnsOnly (desk_view self.old) (desk_view self.new))) }
    {
        match service.attempt(&mut self.pass, &held)? {
            Some(answer) => self.tell(id, answer),
            None => self.wait(id, held),
        }
    }

    // The first request of the other id that waits, waits no more.
    fn cancel(&mut self, id: i64, other: i64) -> Result<(), Fault>
        ensures ok { OnOk result (desk_view self.new ≡ cancelled id other (desk_view self.old)) }
        ensures err { IfErr result (λ f. f ≡ Fault.Memory) }
    {
        match self.index_waiting(other) {
            Some(index) => self.cancel_at(id, other, index),
            None => self.tell(id, Answer::Found(false)),
        }
    }

    // The one at this index waits no more.
    #[tactic(auto, using(crate::proofs::Telling::tells_tells))]
    fn cancel_at(&mut self, id: i64, other: i64, index: usize) -> Result<(), Fault>
        requires { position (λ w. int_eq w.id other) self.old.waiting.items ≡ Some index }
        ensures ok { OnOk result (desk_view self.new ≡ cancelled id other (desk_view self.old)) }
        ensures err { IfErr result (λ f. f ≡ Fault.Memory) }
    {
        self.waiting.remove(index);
        self.tell(other, Answer::Cancelled)?;
        self.tell(id, Answer::Found(true))
    }

    // Where the first request of an id stands among those that wait.
    fn index_waiting(&self, id: i64) -> Option<usize>
        ensures { result ≡ position (λ w. int_eq w.id id) self.now.waiting.items }
    {
        self.waiting.iter().position(|one| one.id == id)
    }
}
