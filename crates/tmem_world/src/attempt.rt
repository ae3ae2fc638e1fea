// One of the attempts that a world keeps.
ghost use Rattle.std.specs.Prelude.{◌≡◌, ◌↔◌, ℕ, List, Some, None, [], length, IsTrue, OnOk, IfErr};
ghost use Rattle.tmem_invariants.specs.Meanings.{Meanings};
ghost use Rattle.tmem_tree.specs.declared.tx.Tx.{Tx};
ghost use Rattle.tmem_tree.specs.declared.signature.Signature.{Signature};
ghost use Rattle.tmem_tree.specs.Plans.{PlanView};
ghost use Rattle.tmem_tree.specs.Signatures.{AreMeant, names_of};
ghost use Rattle.tmem_tree.specs.StepAnswers.{StepMeanings};
ghost use Rattle.tmem_core.specs.Held.{core_state, core_table};
ghost use Rattle.tmem_tentative.specs.Cursors.{StandsIn, IsAt, HasEnded, IsAsBefore, given, answers};
ghost use Rattle.tmem_world.specs.Attempts.{HoldsEnded, FitsAttempt, TurnsBegun};
ghost use Rattle.tmem_world.specs.Replies.{failures_by};

use std::alloc::Global;
use tmem_core::Core;
use tmem_event::Reply;
use tmem_fault::Fault;
use tmem_invariants::Invariants;
use tmem_tentative::{Cursor, Progress};
use tmem_tree::{Plan, StoredSteps};

/// One caller's attempt: a plan, and the cursor that evaluates it. Without a plan the cursor only keeps its memory, for the
/// plan that is begun next.
#[derive(Drop)]
pub(crate) struct WorldAttempt {
    pub(crate) plan: Option<Plan>,
    pub(crate) cursor: Cursor,
}

impl WorldAttempt {
    /// An attempt that holds nothing, and has no memory yet.
    pub(crate) fn new(alloc: Global) -> WorldAttempt
        ensures { result.plan ≡ None }
    {
        WorldAttempt {
            plan: None,
            cursor: Cursor::idle(alloc),
        }
    }

    /// Begins a plan in place of what it held. Its only fault is want of memory, and it holds what it held then.
    pub(crate) fn begin(&mut self, plan: Plan) -> Result<(), Fault>
        ensures plan { OnOk result (self.new.plan ≡ Some plan) }
        ensures stands { OnOk result ((m : StepMeanings) → StandsIn m plan self.new.cursor) }
        ensures at { OnOk result ((m : StepMeanings) (tests : Meanings) → IsAt m tests plan.tree self.new.cursor) }
        ensures given { OnOk result (given self.new.cursor ≡ []) }
        ensures answers { OnOk result (answers self.new.cursor ≡ []) }
        ensures going { OnOk result (¬ HasEnded self.new.cursor) }
        ensures same { IfErr result (λ fault. (fault ≡ Fault.Memory) × (self.new.plan ≡ self.old.plan) × IsAsBefore self.old.cursor self.new.cursor) }
        ensures stays { (m : StepMeanings) (held : PlanView) → StandsIn m held self.old.cursor → IfErr result (λ _. StandsIn m held self.new.cursor) }
        ensures stays_at { (m : StepMeanings) (tests : Meanings) (held : Tx) → IsAt m tests held self.old.cursor → IfErr result (λ _. IsAt m tests held self.new.cursor) }
    {
        self.cursor.restart(&plan)?;
        self.plan = Some(plan);
        Ok(())
    }

    /// Goes on with the plan's evaluation as far as the values and the answers allow that it has. Where it needs one more value, it
    /// reads the present one; where it needs the answer to a test, the core makes it.
    pub(crate) fn turn<S: StoredSteps, T: Invariants + Drop>(
        &mut self,
        steps: &S,
        core: &Core<T>,
    ) -> Reply
        requires { FitsAttempt (length (core_state core.now).values) (S.arities steps.now) (S.is_stated steps.now) (T.names (core_table core.now)) (T.is_stated (core_table core.now)) self.old }
        ensures idle { self.old.plan ≡ None → (result ≡ Reply.Idle) × (self.new ≡ self.old) }
        ensures ended { HoldsEnded self.old → (result ≡ Reply.Ended) × (self.new ≡ self.old) }
        ensures begun { (plan : PlanView) → self.old.plan ≡ Some plan → ¬ HasEnded self.old.cursor
            → TurnsBegun (S.is_stated steps.now) (T.is_stated (core_table core.now)) (core_state core.now) plan.tree self.old.cursor result self.new.cursor }
        ensures at { (plan : PlanView) (m : StepMeanings) (tests : Meanings) → self.old.plan ≡ Some plan → S.is_stated steps.now m → T.is_stated (core_table core.now) tests
            → IsAt m tests plan.tree self.old.cursor → IsAt m tests plan.tree self.new.cursor }
        ensures plan { self.new.plan ≡ self.old.plan }
        ensures failures { (n : ℕ) → failures_by result n ≡ n }
        ensures fits { (signatures : List Signature) → FitsAttempt (length (core_state core.now).values) (S.arities steps.now) (S.is_stated steps.now) (names_of signatures) (λ tests. AreMeant tests signatures) self.old
            → FitsAttempt (length (core_state core.now).values) (S.arities steps.now) (S.is_stated steps.now) (names_of signatures) (λ tests. AreMeant tests signatures) self.new }
    {
        let Some(plan) = &self.plan else {
            return Reply::Idle;
        };
        if self.cursor.is_ended() {
            return Reply::Ended;
        }
        match self.cursor.advance(plan, steps) {
            Ok(Progress::Need(var)) => {
                let value = core.peek(var);
                self.cursor.give(var, value);
                Reply::Read { var, value }
            }
            Ok(Progress::Probe) => {
                let probe = self.cursor.probe();
                let name = probe.name;
                let held = core.probe(probe);
                self.cursor.answer(held);
                Reply::Probed { name, held }
            }
            Ok(Progress::Ended) => Reply::Ended,
            Err(fault) => Reply::Fault(fault),
        }
    }

    /// Whether it holds an attempt that has ended.
    pub(crate) fn is_ended(&self) -> bool
        ensures { IsTrue result ↔ HoldsEnded self.now }
    {
        self.plan.is_some() && self.cursor.is_ended()
    }
}
