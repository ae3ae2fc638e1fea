// The stored steps of a program, in order.

ghost use Rattle.std.specs.Prelude.{◌≡◌, ℕ, ◌<◌, ◌≤◌, List, length, vec_len, map, All, slice_index, slice_get, Some, IsOk, IfOk, IfErr, ◌↔◌};
ghost use Rattle.tmem_tree.specs.StepAnswers.{StepMeanings, StepGives};

use crate::step::{Step, StepAnswer, StepEntry};
use tmem_fault::{Cause, Fault};

/// The most steps of a program.
pub const MAX_STEPS: usize = 64;

/// Stored steps, as whoever runs a transaction sees them: by their index.
pub trait StoredSteps {
    /// How many arguments each takes, in order.
    ghost arities: { Self → List ℕ };

    /// Each answers what these meanings say of its index.
    ghost is_stated: { Self → StepMeanings → Type 0 };

    /// How many there are.
    fn len(&self) -> usize
        ensures { result ≡ length (arities self.now) };

    /// How many arguments the step of this index takes.
    fn arity(&self, index: usize) -> usize
        requires { index < length (arities self.now) }
        ensures { result ≡ slice_index (arities self.now) index };

    /// What the step of this index answers.
    fn answer(&self, index: usize, args: &[i64]) -> StepAnswer
        requires there { index < length (arities self.now) }
        requires given { length args.now ≡ slice_index (arities self.now) index }
        ensures { (m : StepMeanings) → is_stated self.now m → result ≡ m index args.now };

    /// There are at most `MAX_STEPS`.
    ghost few: { (steps : Self) → length (arities steps) ≤ 64 };

    /// Each takes at most `MAX_ARGUMENTS`.
    ghost small: { (steps : Self) → All (λ n. n ≤ 4) (arities steps) };

    /// Each has a meaning.
    ghost has_meanings: { (steps : Self) → ∥ ((m : StepMeanings) × is_stated steps m) ∥₁ };
}

/// Stored steps that are closures.
#[derive(Drop)]
pub struct Steps {
    /// The steps, each at its index.
    pub entries: Vec<StepEntry>,
    ghost few: { length entries.items ≤ 64 },
}

impl Steps {
    /// The steps. Refused with `BadStep` where there are more than `MAX_STEPS`.
    pub fn of(entries: Vec<StepEntry>) -> Result<Steps, Fault>
        ensures few { IsOk result ↔ (vec_len entries ≤ 64) }
        ensures entries { IfOk result (λ steps. steps.entries ≡ entries) }
        ensures fault { IfErr result (λ fault. fault ≡ Fault.BadPlan Cause.BadStep) }
    {
        if entries.len() > MAX_STEPS {
            return Err(Fault::BadPlan(Cause::BadStep));
        }
        Ok(Steps { entries })
    }
}

impl StoredSteps for Steps {
    ghost arities = { λ steps. map (λ entry. entry.arity) steps.entries.items };

    ghost is_stated = { λ steps m. (index : ℕ) (entry : _) → slice_get steps.entries.items index ≡ Some entry → StepGives (Step.post entry.step) entry.arity (m index) };

    fn len(&self) -> usize {
        self.entries.len()
    }

    fn arity(&self, index: usize) -> usize {
        self.entries[index].arity as usize
    }

    fn answer(&self, index: usize, args: &[i64]) -> StepAnswer {
        self.entries[index].call(args)
    }

    ghost use Rattle.std.proofs.Common.{get_or, subst, sym};
    ghost use Rattle.std.proofs.lemmas.List.{length-map};
    ghost use Rattle.std.proofs.lemmas.List.Elements.{All-map};

    ghost few = { λ steps. subst (λ n. n ≤ 64) (sym (length-map steps.entries.items (λ entry. entry.arity))) steps.few };

    ghost small = { λ steps. All-map (λ n. n ≤ 4) (λ entry. entry.arity) steps.entries.items (λ k d below. (get_or steps.entries.items k d).few) };

    ghost use Rattle.tmem_tree.specs.declared.step.StepAnswer.TheVariants.{Retry};
    ghost use Rattle.tmem_tree.specs.JoinedSteps.{joined_steps};

    ghost has_meanings = { λ steps. joined_steps _ (λ _. Retry) (λ entry. entry.stated) steps.entries.items };
}
