// An evaluation that goes on where it stopped.

ghost use Rattle.std.specs.Prelude.{◌≡◌, ℕ, ◌+◌, ◌-◌, ◌<◌, ◌≤◌, ◌↔◌, List, [], ◌∷◌, ◌++◌, length, replicate, vec_len, vec_capacity, nat_eq, IsTrue, IfOk, IfErr};
ghost use Rattle.indexmap.specs.IndexMap.{insert_entry, spare};
ghost use Rattle.tmem_invariants.specs.Meanings.{Meanings};
ghost use Rattle.tmem_tree.specs.declared.tx.Tx.{Tx};
ghost use Rattle.tmem_tree.specs.Limits.{choices};
ghost use Rattle.tmem_tree.specs.Signatures.{names_of};
ghost use Rattle.tmem_tree.specs.StepAnswers.{StepMeanings};
ghost use Rattle.tmem_tree.specs.Plans.{PlanView, IsWithinLimits, FitsSteps, FitsVariables, FitsNames, FitsSignatures, HasSignatures};
ghost use Rattle.tmem_tentative.specs.Stages.{wanted, no_save};

use crate::answers::Answers;
use crate::attempt::{Attempt, Ending, Outcome, Probe, Progress, Reads};
use crate::course::Course;
use crate::evaluation::end;
use crate::flow::Flow;
use crate::path::Path;
use crate::save::Save;
use crate::walk_on::walk_on;
use std::alloc::{AllocError, Global};
use std::snapshot::Snapshot;
use tmem_effect::Effect;
use tmem_fault::Fault;
use tmem_tree::{Plan, REGISTERS, StoredSteps, Tx};

// What a cursor does next.
#[derive(Clone, Copy, Debug, PartialEq, Eq)]
pub(crate) enum Stage {
    // It goes on from its place.
    Going,
    // It waits for the value of this variable.
    Waits(u16),
    // It waits for the answer to its test.
    Tests,
    // It has ended.
    Ended,
}

/// An evaluation of a plan that goes on where it stopped. It keeps its place in the tree, its memory, and what it was given and
/// answered, and takes no step twice, but sees a footprint anew. The plan and the steps are handed in at each call, and are to be
/// those that it began with: `StandsIn` in `specs/` says so, of a plan and of what the steps mean. `IsAt` says besides that the
/// answers are those of the tests that the names mean.
pub struct Cursor {
    // what was done so far, and where it goes on
    course: Course,
    // what the choices go back to that stand in their first branch, the outermost first; the rest is room
    saves: Vec<Save>,
    stage: Stage,
    // what it was answered
    answers: Snapshot<Answers>,
    ghost room: { wanted stage ≤ spare course.attempt.reads },
}

// By hand, so that a function that drops one makes one call.
impl Drop for Cursor {
    fn drop(self) {
        let Cursor {
            course: _course,
            saves: _saves,
            stage: _stage,
            answers: _answers,
        } = self;
    }
}

impl Cursor {
    ghost use Rattle.tmem_tentative.specs.Right.{IsOutcome};
    ghost use Rattle.tmem_tentative.specs.Ends.{IsEndOf};
    ghost use Rattle.tmem_tentative.specs.Fits.{IsFit, IsWithinVariables, IsNamed, IsFilled};
    ghost use Rattle.tmem_tentative.specs.Cursors.{IsAt, StandsIn, IsAtStage, NeedsValue, NeedsAnswer, HasEnded, Answered, IsAnswer, IsAsBefore, given, answers, probe_of, attempt_of, outcome_of, outcome_with};
    ghost use Rattle.tmem_tentative.specs.Logs.{AreOf};

    /// A cursor in no evaluation, which has no memory: `restart` begins one.
    pub fn idle(alloc: Global) -> Cursor
        ensures given { given result ≡ [] }
        ensures answers { answers result ≡ [] }
        ensures going { ¬ HasEnded result }
    {
        Cursor {
            course: Course {
                attempt: Attempt {
                    reads: Reads::new(alloc),
                    ending: Ending::Normal,
                    registers: [0; REGISTERS],
                    effect: Effect::new(),
                },
                path: Path::new(),
                pending: None,
                probe: Probe::placeholder(),
            },
            saves: Vec::new(alloc),
            stage: Stage::Going,
            answers: Answers::none(),
        }
    }

    /// A cursor at the start of a plan, which was given no value. Its only fault is want of memory.
    pub fn new(alloc: Global, plan: &Plan) -> Result<Cursor, Fault>
        ensures stands { (m : StepMeanings) → IfOk result (StandsIn m plan.now) }
        ensures at { (m : StepMeanings) (tests : Meanings) → IfOk result (IsAt m tests plan.now.tree) }
        ensures given { IfOk result (λ cursor. given cursor ≡ []) }
        ensures answers { IfOk result (λ cursor. answers cursor ≡ []) }
        ensures going { IfOk result (λ cursor. ¬ HasEnded cursor) }
        ensures fault { IfErr result (λ fault. fault ≡ Fault.Memory) }
    {
        let mut cursor = Cursor::idle(alloc);
        cursor.restart(plan)?;
        Ok(cursor)
    }

    /// Goes to the start of a plan, of the same or of another one, and forgets what it was given and answered. It asks for memory
    /// only where it has too little. Where that is refused, its only fault, it stays as it was.
    pub fn restart(&mut self, plan: &Plan) -> Result<(), Fault>
        ensures stands { (m : StepMeanings) → IfOk result (λ _. StandsIn m plan.now self.new) }
        ensures at { (m : StepMeanings) (tests : Meanings) → IfOk result (λ _. IsAt m tests plan.now.tree self.new) }
        ensures given { IfOk result (λ _. given self.new ≡ []) }
        ensures answers { IfOk result (λ _. answers self.new ≡ []) }
        ensures going { IfOk result (λ _. ¬ HasEnded self.new) }
        ensures same { IfErr result (λ _. IsAsBefore self.old self.new) }
        ensures stays { (m : StepMeanings) (held : PlanView) → StandsIn m held self.old → IfErr result (λ _. StandsIn m held self.new) }
        ensures stays_at { (m : StepMeanings) (tests : Meanings) (held : Tx) → IsAt m tests held self.old → IfErr result (λ _. IsAt m tests held self.new) }
        ensures fault { IfErr result (λ fault. fault ≡ Fault.Memory) }
    {
        make_room(&mut self.saves, plan)?;
        self.course.attempt.reads.truncate(0);
        self.course.attempt.registers = [0; REGISTERS];
        self.course.attempt.effect.clear();
        self.course.path.clear();
        self.course.pending = None;
        self.stage = Stage::Going;
        self.answers = Answers::none();
        Ok(())
    }

    /// Goes on as far as the values and the answers allow that it was given. It answers the variable whose value it needs next, and
    /// has made room for that value then; or that it needs the answer to a test, which `probe` lends; or that it has ended. Asked
    /// once more, it answers the same. Its only fault is want of memory, and it stays as it was then.
    #[inline(always)]
    pub fn advance<S: StoredSteps>(&mut self, plan: &Plan, steps: &S) -> Result<Progress, Fault>
        requires steps { FitsSteps (S.arities steps.now) plan.now.tree }
        requires stands { (m : StepMeanings) → S.is_stated steps.now m → StandsIn m plan.now self.old }
        ensures stands { (m : StepMeanings) → S.is_stated steps.now m → StandsIn m plan.now self.new }
        ensures at { (m : StepMeanings) (tests : Meanings) → S.is_stated steps.now m → FitsSignatures tests plan.now → IsAt m tests plan.now.tree self.old → IsAt m tests plan.now.tree self.new }
        ensures given { given self.new ≡ given self.old }
        ensures answers { answers self.new ≡ answers self.old }
        ensures answered { IfOk result (Answered self.new) }
        ensures right { (m : StepMeanings) (tests : Meanings) → S.is_stated steps.now m → FitsSignatures tests plan.now → IsAt m tests plan.now.tree self.old
            → IfOk result (λ progress. IsOutcome m tests plan.now.tree (given self.new) (length (answers self.new)) (outcome_of self.new progress)) }
        ensures fits { IfOk result (λ progress. IsFit (given self.new) (outcome_of self.new progress)) }
        ensures within { (vars : ℕ) → FitsVariables vars plan.now → IfOk result (λ progress. IsWithinVariables vars (outcome_of self.new progress)) }
        ensures named { (names : List (List ℕ)) → FitsNames names plan.now.tree → IfOk result (λ progress. IsNamed names (outcome_of self.new progress)) }
        ensures filled { IfOk result (λ progress. IsFilled plan.now.signatures (outcome_of self.new progress)) }
        ensures same { IfErr result (λ _. IsAsBefore self.old self.new) }
        ensures fault { IfErr result (λ fault. fault ≡ Fault.Memory) }
    {
        let tree = plan.tree();
        match self.stage {
            Stage::Going => {
                self.course.attempt.reads.reserve(1)?;
                Ok(self.go_on(tree, plan, steps))
            }
            Stage::Waits(var) => Ok(Progress::Need(var)),
            Stage::Tests => Ok(Progress::Probe),
            Stage::Ended => Ok(Progress::Ended),
        }
    }

    /// What `evaluate` answers on the values and the answers that it was given. It goes on as `advance` does, and first copies these
    /// values, for the attempt that it may come to. Its only fault is want of memory, and it stays as it was then.
    pub fn resume<S: StoredSteps>(&mut self, plan: &Plan, steps: &S) -> Result<Outcome, Fault>
        requires steps { FitsSteps (S.arities steps.now) plan.now.tree }
        requires stands { (m : StepMeanings) → S.is_stated steps.now m → StandsIn m plan.now self.old }
        ensures stands { (m : StepMeanings) → S.is_stated steps.now m → StandsIn m plan.now self.new }
        ensures at { (m : StepMeanings) (tests : Meanings) → S.is_stated steps.now m → FitsSignatures tests plan.now → IsAt m tests plan.now.tree self.old → IsAt m tests plan.now.tree self.new }
        ensures given { given self.new ≡ given self.old }
        ensures answers { answers self.new ≡ answers self.old }
        ensures answered { IfOk result (IsAnswer self.new) }
        ensures right { (m : StepMeanings) (tests : Meanings) → S.is_stated steps.now m → FitsSignatures tests plan.now → IsAt m tests plan.now.tree self.old
            → IfOk result (IsOutcome m tests plan.now.tree (given self.new) (length (answers self.new))) }
        ensures fits { IfOk result (IsFit (given self.new)) }
        ensures within { (vars : ℕ) → FitsVariables vars plan.now → IfOk result (IsWithinVariables vars) }
        ensures named { (names : List (List ℕ)) → FitsNames names plan.now.tree → IfOk result (IsNamed names) }
        ensures filled { IfOk result (IsFilled plan.now.signatures) }
        ensures same { IfErr result (λ _. IsAsBefore self.old self.new) }
        ensures fault { IfErr result (λ fault. fault ≡ Fault.Memory) }
    {
        let reads = copy_of(&self.course.attempt.reads)?;
        let progress = self.advance(plan, steps)?;
        Ok(self.outcome(progress, reads))
    }

    // What it hands out, with these values in an attempt.
    fn outcome(&self, progress: Progress, reads: Reads) -> Outcome
        ensures { result ≡ outcome_with (record self.now.course.attempt { reads = reads }) self.now progress }
    {
        match progress {
            Progress::Need(var) => Outcome::Need(var),
            Progress::Probe => Outcome::Probe(self.course.probe.copy()),
            Progress::Ended => Outcome::Ended(Attempt {
                reads,
                ending: self.course.attempt.ending,
                registers: self.course.attempt.registers,
                effect: self.course.attempt.effect.copy(),
            }),
        }
    }

    /// Takes the value that it needs. It takes no memory, since the room was made.
    #[inline(always)]
    pub fn give(&mut self, var: u16, value: i64)
        requires { NeedsValue self.old var }
        ensures stands { (m : StepMeanings) (plan : PlanView) → StandsIn m plan self.old → StandsIn m plan self.new }
        ensures at { (m : StepMeanings) (tests : Meanings) (plan : Tx) → IsAt m tests plan self.old → IsAt m tests plan self.new }
        ensures given { given self.new ≡ insert_entry nat_eq (given self.old) var value }
        ensures answers { answers self.new ≡ answers self.old }
        ensures going { ¬ HasEnded self.new }
    {
        let added = self.course.attempt.reads.insert(var, value);
        let _ = added.unwrap();
        self.stage = Stage::Going;
    }

    /// The test whose answer it needs: the invariant of a name, on the values of its footprint.
    pub fn probe(&self) -> &Probe
        requires { NeedsAnswer self.now }
        ensures { result.now ≡ probe_of self.now }
    {
        &self.course.probe
    }

    /// Takes the answer to its test: whether the invariant holds on these values. It takes no memory.
    #[inline(always)]
    pub fn answer(&mut self, held: bool)
        requires { NeedsAnswer self.old }
        ensures stands { (m : StepMeanings) (plan : PlanView) → StandsIn m plan self.old → StandsIn m plan self.new }
        ensures at { (m : StepMeanings) (tests : Meanings) (plan : Tx) → IsAt m tests plan self.old → held ≡ tests.test (probe_of self.old).name (probe_of self.old).values → IsAt m tests plan self.new }
        ensures given { given self.new ≡ given self.old }
        ensures answers { answers self.new ≡ answers self.old ++ held ∷ [] }
        ensures going { ¬ HasEnded self.new }
    {
        self.course.pending = Some(held);
        self.stage = Stage::Going;
        Answers::add(&mut self.answers, held);
    }

    /// The attempt of an evaluation that has ended.
    pub fn attempt(&self) -> &Attempt
        requires { HasEnded self.now }
        ensures attempt { result.now ≡ attempt_of self.now }
        ensures right { (m : StepMeanings) (tests : Meanings) (plan : Tx) → IsAt m tests plan self.now → IsOutcome m tests plan (given self.now) (length (answers self.now)) (Outcome.Ended result.now) }
    {
        &self.course.attempt
    }

    /// The attempt of an evaluation that has ended, without a copy.
    pub fn into_attempt(self) -> Attempt
        requires { HasEnded self }
        ensures attempt { result ≡ attempt_of self }
        ensures right { (m : StepMeanings) (tests : Meanings) (plan : Tx) → IsAt m tests plan self → IsOutcome m tests plan (given self) (length (answers self)) (Outcome.Ended result) }
    {
        let Cursor {
            course,
            saves: _saves,
            stage: _stage,
            answers: _answers,
        } = self;
        course.attempt
    }

    /// Whether it has ended.
    pub fn is_ended(&self) -> bool
        ensures { IsTrue result ↔ HasEnded self.now }
    {
        matches!(self.stage, Stage::Ended)
    }

    // Goes on from its place. There is room for the value that it may need.
    #[inline(always)]
    fn go_on<S: StoredSteps>(&mut self, tree: &Tx, plan: &Plan, steps: &S) -> Progress
        requires tree { tree.now ≡ plan.now.tree }
        requires limits { IsWithinLimits plan.now.tree }
        requires known { HasSignatures (names_of plan.now.signatures) plan.now.tree }
        requires steps { FitsSteps (S.arities steps.now) plan.now.tree }
        requires stands { (m : StepMeanings) → S.is_stated steps.now m → StandsIn m plan.now self.old }
        requires going { self.old.stage ≡ Stage.Going }
        requires room { 1 ≤ spare self.old.course.attempt.reads }
        ensures stands { (m : StepMeanings) (footprint : List ℕ → List ℕ) → S.is_stated steps.now m → AreOf plan.now.signatures footprint
            → IsAtStage m footprint plan.now.tree self.old.stage self.old → IsAtStage m footprint plan.now.tree self.new.stage self.new }
        ensures given { given self.new ≡ given self.old }
        ensures answers { answers self.new ≡ answers self.old }
        ensures answered { Answered self.new result }
    {
        let flow = walk_on(
            tree,
            plan,
            steps,
            &mut self.course,
            self.saves.as_mut_slice(),
        );
        match flow {
            Flow::Need(var) => {
                self.stage = Stage::Waits(var);
                Progress::Need(var)
            }
            Flow::Test => {
                self.stage = Stage::Tests;
                Progress::Probe
            }
            Flow::Normal => self.finish(Ending::Normal),
            Flow::Retry => self.finish(Ending::Retry),
            Flow::Leave => self.finish(self.course.attempt.ending),
        }
    }

    // Makes the attempt of a run that has ended.
    fn finish(&mut self, ending: Ending) -> Progress
        ensures attempt { IsEndOf self.old.course.attempt ending self.new.course.attempt }
        ensures pending { self.new.course.pending ≡ self.old.course.pending }
        ensures answers { self.new.answers ≡ self.old.answers }
        ensures ended { HasEnded self.new }
        ensures answer { result ≡ Progress.Ended }
    {
        end(&mut self.course.attempt, ending);
        self.stage = Stage::Ended;
        Progress::Ended
    }
}

// Adds as many saves as the choices of a plan lack, each with nothing in it. Where memory is refused there are as many as before.
fn make_room(saves: &mut Vec<Save>, plan: &Plan) -> Result<(), AllocError>
    ensures added { IfOk result (λ _. saves.new.items ≡ saves.old.items ++ replicate (choices plan.now.tree - length saves.old.items) no_save) }
    ensures limits { IsWithinLimits plan.now.tree }
    ensures same { IfErr result (λ _. saves.new.items ≡ saves.old.items) }
{
    let many = plan.choices();
    let had = saves.len();
    while saves.len() < many {
        if let Err(refused) = saves.push(Save::new()) {
            saves.truncate(had);
            return Err(refused.into());
        }
    }
    Ok(())
}

// The same reads once more.
fn copy_of(reads: &Reads) -> Result<Reads, AllocError>
    ensures { IfOk result (λ copy. copy.entries ≡ reads.now.entries) }
{
    Ok(reads.clone()?)
}
