//! The stored steps that scripts can call, by name: `add`, `sub` and `need`.
ghost use Rattle.std.specs.Prelude.{◌≡◌, ◌<◌, ◌∷◌, [], ℕ, ℤ, List, Some, codes, length, slice_index_or, IfSome};
ghost use Rattle.tmem_builtins.specs.Builtins.{builtin_steps};
ghost use Rattle.tmem_builtins.specs.Steps.{step_names, sum_of, difference_of, at_least};

use tmem_tree::{StepAnswer, StoredSteps};

/// The code of the abort where a result is no i64.
const NO_NUMBER: u16 = 65535;

/// Where the step of this name stands among `stored_steps`, or none where there is no such step.
pub fn index_of(name: &str) -> Option<u16>
    ensures below { IfSome result (λ index. index < 3) }
    ensures add { name.now ≡ codes "add" → result ≡ Some 0 }
    ensures sub { name.now ≡ codes "sub" → result ≡ Some 1 }
    ensures need { name.now ≡ codes "need" → result ≡ Some 2 }
    ensures named { IfSome result (λ index. slice_index_or step_names index [] ≡ name.now) }
{
    match name {
        "add" => Some(0),
        "sub" => Some(1),
        "need" => Some(2),
        _ => None,
    }
}

/// The step `add`: the sum of two numbers. Aborts with 65535 where that is no i64.
pub fn add(args: &[i64]) -> StepAnswer
    requires { length args.now ≡ 2 }
    ensures { result ≡ sum_of args.now }
{
    match args[0].checked_add(args[1]) {
        Some(sum) => StepAnswer::Value(sum),
        None => StepAnswer::Abort(NO_NUMBER),
    }
}

/// The step `sub`: the first of two numbers less the second. Aborts with 65535 where that is no i64.
pub fn sub(args: &[i64]) -> StepAnswer
    requires { length args.now ≡ 2 }
    ensures { result ≡ difference_of args.now }
{
    match args[0].checked_sub(args[1]) {
        Some(difference) => StepAnswer::Value(difference),
        None => StepAnswer::Abort(NO_NUMBER),
    }
}

/// The step `need`: the first of two numbers. Retries where it is less than the second.
pub fn need(args: &[i64]) -> StepAnswer
    requires { length args.now ≡ 2 }
    ensures { result ≡ at_least args.now }
{
    if args[0] < args[1] {
        StepAnswer::Retry
    } else {
        StepAnswer::Value(args[0])
    }
}

/// The steps `add`, `sub` and `need`, each of two arguments, in the order of `index_of`. They take no memory.
#[derive(Clone, Copy, Drop)]
pub struct BuiltinSteps;

/// The three steps.
pub fn stored_steps() -> BuiltinSteps
    ensures arities { ⟦<BuiltinSteps as StoredSteps>⟧.arities result ≡ 2 ∷ 2 ∷ 2 ∷ [] }
    ensures stated { ⟦<BuiltinSteps as StoredSteps>⟧.is_stated result builtin_steps }
{
    BuiltinSteps
}

impl StoredSteps for BuiltinSteps {
    ghost arities = { λ _. 2 ∷ 2 ∷ 2 ∷ [] };

    ghost is_stated = { λ _ m. (index : ℕ) (args : List ℤ) → index < 3 → m index args ≡ builtin_steps index args };

    fn len(&self) -> usize {
        3
    }

    fn arity(&self, _index: usize) -> usize {
        2
    }

    fn answer(&self, index: usize, args: &[i64]) -> StepAnswer {
        match index {
            0 => add(args),
            1 => sub(args),
            _ => need(args),
        }
    }

    ghost use Rattle.std.proofs.Common.{lit≤, refl};
    ghost use Rattle.tmem_builtins.specs.Builtins.{three_small};

    ghost few = { λ _. lit≤ tt };

    ghost small = { λ _. three_small };

    ghost has_meanings = { λ _. ∣ (builtin_steps, λ _ _ _. refl) ∣₁ };
}
