// One evaluation, from the start.

ghost use Rattle.std.specs.Prelude.{◌≡◌, ℕ, Bool, List, length, IfOk, IfErr};
ghost use Rattle.tmem_invariants.specs.Meanings.{Meanings};
ghost use Rattle.tmem_tree.specs.StepAnswers.{StepMeanings};
ghost use Rattle.tmem_tree.specs.Plans.{FitsSteps, FitsVariables, FitsNames, FitsSignatures};
ghost use Rattle.tmem_tentative.specs.Right.{IsOutcome, HaveAnswered};
ghost use Rattle.tmem_tentative.specs.Logs.{IsLeaving, run_state_of, flow_at, out_of};
ghost use Rattle.tmem_tentative.specs.Ends.{IsEndOf, IsMadeOf};
ghost use Rattle.tmem_tentative.specs.Fits.{IsFit, IsWithinVariables, IsNamed, IsFilled};

use crate::attempt::{Attempt, Ending, Outcome, Probe, Reads};
use crate::flow::Flow;
use crate::walk::{Given, Tests, walk};
use std::alloc::Global;
use tmem_effect::Effect;
use tmem_fault::Fault;
use tmem_tree::{Plan, REGISTERS, StoredSteps};

/// Runs a plan, for these steps, as far as the reads and the answers allow. A Read, and a Check for each variable of its footprint,
/// takes the transaction's own latest write where there is one, else the value in `reads`, else the answer is the variable. A Check
/// then takes the next of `answers`, which are those to the tests that it asked for so far, in order; where there is none left, the
/// answer is the test. Its only fault is want of memory.
pub fn evaluate<S: StoredSteps>(
    alloc: Global,
    plan: &Plan,
    steps: &S,
    reads: &Reads,
    answers: &[bool],
) -> Result<Outcome, Fault>
    requires { FitsSteps (S.arities steps.now) plan.now.tree }
    ensures right { (m : StepMeanings) (tests : Meanings) → S.is_stated steps.now m → FitsSignatures tests plan.now → HaveAnswered m tests plan.now.tree reads.now.entries answers.now
        → IfOk result (IsOutcome m tests plan.now.tree reads.now.entries (length answers.now)) }

    // What holds of each answer, whatever the steps mean.
    ensures fits { IfOk result (IsFit reads.now.entries) }
    ensures within { (vars : ℕ) → FitsVariables vars plan.now → IfOk result (IsWithinVariables vars) }
    ensures named { (names : List (List ℕ)) → FitsNames names plan.now.tree → IfOk result (IsNamed names) }
    ensures filled { IfOk result (IsFilled plan.now.signatures) }
    ensures fault { IfErr result (λ fault. fault ≡ Fault.Memory) }
{
    let mut attempt = Attempt {
        reads: Reads::new(alloc),
        ending: Ending::Normal,
        registers: [0; REGISTERS],
        effect: Effect::new(),
    };
    let given = Given {
        signatures: plan.signatures(),
        reads,
        answers,
    };
    let mut tests = Tests {
        used: 0,
        probe: Probe::placeholder(),
    };
    let flow = walk(alloc, plan.tree(), steps, &given, &mut attempt, &mut tests)?;
    Ok(outcome(flow, attempt, tests.probe))
}

// What a run comes to that can go no further.
fn outcome(flow: Flow, mut attempt: Attempt, probe: Probe) -> Outcome
    requires { flow ≡ Flow.Leave → IsLeaving attempt.ending }
    ensures { (left : List Bool) → IsMadeOf (flow_at (out_of flow attempt probe) (run_state_of attempt left)) left result }
{
    let ending = match flow {
        Flow::Need(var) => return Outcome::Need(var),
        Flow::Test => return Outcome::Probe(probe),
        Flow::Normal => Ending::Normal,
        Flow::Retry => Ending::Retry,
        Flow::Leave => attempt.ending,
    };
    end(&mut attempt, ending);
    Outcome::Ended(attempt)
}

/// Makes an attempt of a run that has ended: unless it ended normally, its registers and its effect are let go.
#[inline(always)]
pub(crate) fn end(attempt: &mut Attempt, ending: Ending)
    ensures { IsEndOf attempt.old ending attempt.new }
{
    attempt.ending = ending;
    if ending != Ending::Normal {
        attempt.registers = [0; REGISTERS];
        attempt.effect.clear();
    }
}
