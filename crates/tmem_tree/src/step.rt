// One stored step.

ghost use Rattle.std.specs.Prelude.{◌≡◌, ℕ, ◌≤◌, ℤ, List, length, IsOk, IfOk, IfErr, ◌↔◌};
ghost use Rattle.tmem_tree.specs.StepAnswers.{MayCallStep, StepGives, StepHasMeaning};

use tmem_fault::{Cause, Fault};

/// The most arguments that a step takes.
pub const MAX_ARGUMENTS: u8 = 4;

/// What a step answers.
#[derive(Clone, Copy, Debug, PartialEq, Eq)]
pub enum StepAnswer {
    /// A number for the register.
    Value(i64),
    /// The transaction retries.
    Retry,
    /// The transaction gives up, with this code.
    Abort(u16),
}

/// The closure of a step. It is handed as many numbers as the step takes.
pub type Step = Box<dyn Fn(&[i64]) -> StepAnswer + Send + Sync>;

/// A stored step with the number of its arguments. It may be called on each list of that many numbers, and there is a
/// meaning that it then answers.
#[derive(Drop)]
pub struct StepEntry {
    /// How many arguments it takes.
    pub arity: u8,
    /// The closure.
    pub step: Step,
    ghost few: { arity ≤ 4 },
    ghost callable: { MayCallStep (Step.pre step) arity },
    ghost stated: { StepHasMeaning (Step.post step) arity },
}

impl StepEntry {
    /// The entry. Refused with `BadArguments` where it takes more than `MAX_ARGUMENTS`.
    pub fn new(arity: u8, step: Step) -> Result<StepEntry, Fault>
        requires callable { MayCallStep (Step.pre step) arity }
        requires stated { StepHasMeaning (Step.post step) arity }
        ensures few { IsOk result ↔ (arity ≤ 4) }
        ensures arity { IfOk result (λ entry. entry.arity ≡ arity) }
        ensures step { IfOk result (λ entry. entry.step ≡ step) }
        ensures fault { IfErr result (λ fault. fault ≡ Fault.BadPlan Cause.BadArguments) }
    {
        if arity > MAX_ARGUMENTS {
            return Err(Fault::BadPlan(Cause::BadArguments));
        }
        Ok(StepEntry { arity, step })
    }

    /// What the step answers.
    pub fn call(&self, args: &[i64]) -> StepAnswer
        requires { length args.now ≡ self.now.arity }
        ensures { (meaning : List ℤ → StepAnswer) → StepGives (Step.post self.now.step) self.now.arity meaning → result ≡ meaning args.now }
    {
        (self.step)(args)
    }
}
