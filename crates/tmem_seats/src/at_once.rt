// Evaluates under the core's lock, so that no other thread comes in between.
ghost use Rattle.std.specs.Prelude.{◌≡◌, false, length, IfOk, IfErr};
ghost use Rattle.tmem_core.specs.SettleAnswer.{has_changed};
ghost use Rattle.tmem_tentative.specs.Cursors.{HasEnded, attempt_of};
ghost use Rattle.tmem_tentative.specs.Fits.{IsForVariables, IsForNames};
ghost use Rattle.tmem_tentative.specs.Right.{IsRight};
ghost use Rattle.tmem_tree.specs.Plans.{FitsSteps, FitsVariables, FitsNames, FitsSignatures};
ghost use Rattle.tmem_tree.specs.StepAnswers.{StepMeanings};
ghost use Rattle.tmem_seats.specs.Histories.{state_after_history};

use crate::core_seat::CoreSeat;
use crate::naming::StoreNaming;
use std::sync::Wait;
use tmem_fault::Fault;
use tmem_invariants::Invariants;
use tmem_tentative::{Cursor, Progress};
use tmem_tree::{Plan, StoredSteps};

impl<N: StoreNaming, T: Invariants + Drop> CoreSeat<N, T> {
    /// Evaluates a plan in place, from its start to its end, on the present values, and tests what it checks: whoever settles the attempt
    /// under the same lock is not told `Conflict`. Its only fault is want of memory.
    pub fn evaluate<R: Wait, S: StoredSteps>(
        &self,
        rt: &R,
        cursor: &mut Cursor,
        plan: &Plan,
        steps: &S,
    ) -> Result<(), Fault>
        requires steps { FitsSteps (S.arities steps.now) plan.now.tree }
        requires variables { FitsVariables (length N.opening.values) plan.now }
        requires names { FitsNames N.program.names plan.now.tree }
        requires signatures { FitsSignatures N.program.tests plan.now }
        ensures ended { IfOk result (λ _. HasEnded cursor.new) }
        ensures right { (m : StepMeanings) → S.is_stated steps.now m → IfOk result (λ _. IsRight m N.program.tests plan.now.tree (attempt_of cursor.new)) }
        ensures variables { IfOk result (λ _. IsForVariables (length N.opening.values) (attempt_of cursor.new)) }
        ensures names { IfOk result (λ _. IsForNames N.program.names (attempt_of cursor.new)) }
        ensures present { IfOk result (λ _. has_changed (state_after_history N.opening self.now.committed) (attempt_of cursor.new).reads.entries ≡ false) }
        ensures memory { IfErr result (λ fault. fault ≡ Fault.Memory) }
    {
        cursor.restart(plan)?;
        for _ in rt.forever() {
            match cursor.advance(plan, steps)? {
                Progress::Need(var) => {
                    let value = self.peek(var);
                    cursor.give(var, value);
                }
                Progress::Probe => {
                    let held = self.probe(cursor.probe());
                    cursor.answer(held);
                }
                Progress::Ended => return Ok(()),
            }
        }
        unreachable!()
    }
}
