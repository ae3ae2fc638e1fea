//! How often closures and stored steps were called.
ghost use Rattle.std.specs.Prelude.{◌≡◌, ◌∷◌, [], ℕ, ℤ, List};
ghost use Rattle.tmem_player.specs.Steps.{player_answer};

use std::alloc::{AllocError, Global};
use std::sync::Arc;
use std::sync::atomic::{AtomicU64, Ordering};
use tmem_builtins::{add, need, sub};
use tmem_tree::{StepAnswer, StoredSteps};

/// How often the closures of invariants and the stored steps were called since the last time.
#[derive(Drop)]
pub(crate) struct Counts {
    tests: AtomicU64,
    steps: AtomicU64,
}

impl Counts {
    /// Counts a call of an invariant.
    pub(crate) fn add_test(&self) {
        self.tests.fetch_add(1, Ordering::SeqCst);
    }

    /// Counts a call of a stored step.
    pub(crate) fn add_step(&self) {
        self.steps.fetch_add(1, Ordering::SeqCst);
    }

    /// How often stored steps were called since the last time, which stays so.
    pub(crate) fn steps(&self) -> u64 {
        self.steps.load(Ordering::SeqCst)
    }

    /// Goes back to so many calls of stored steps.
    pub(crate) fn go_back(&self, steps: u64) {
        self.steps.store(steps, Ordering::SeqCst);
    }

    /// How often invariants were called since the last time.
    pub(crate) fn take_tests(&self) -> u64 {
        self.tests.swap(0, Ordering::SeqCst)
    }

    /// How often stored steps were called since the last time.
    pub(crate) fn take_steps(&self) -> u64 {
        self.steps.swap(0, Ordering::SeqCst)
    }
}

/// The counts, for whoever reads them and for each closure.
pub(crate) type CallCounts = Arc<Counts>;

/// Counts that begin at 0.
pub(crate) fn no_calls(alloc: Global) -> Result<CallCounts, AllocError> {
    let counts = Counts {
        tests: AtomicU64::new(0),
        steps: AtomicU64::new(0),
    };
    Ok(Arc::new(alloc, counts)?)
}

/// The counts for three closures.
#[derive(Drop)]
pub(crate) struct Three {
    pub(crate) first: CallCounts,
    pub(crate) second: CallCounts,
    pub(crate) third: CallCounts,
}

impl Three {
    pub(crate) fn of(calls: &CallCounts) -> Result<Three, AllocError> {
        Ok(Three {
            first: calls.clone()?,
            second: calls.clone()?,
            third: calls.clone()?,
        })
    }
}

/// The stored steps of the program, which count how often they are called.
#[derive(Clone, Copy)]
pub(crate) struct CountedSteps<'a> {
    pub(crate) counts: &'a Counts,
}

impl<'a> StoredSteps for CountedSteps<'a> {
    ghost arities = { λ _. 2 ∷ 2 ∷ 2 ∷ [] };

    ghost is_stated = { λ _ m. (index : ℕ) (args : List ℤ) → m index args ≡ player_answer index args };

    fn len(&self) -> usize {
        3
    }

    fn arity(&self, _index: usize) -> usize {
        2
    }

    fn answer(&self, index: usize, args: &[i64]) -> StepAnswer {
        self.counts.add_step();
        match index {
            0 => add(args),
            1 => sub(args),
            _ => need(args),
        }
    }

    ghost use Rattle.std.proofs.Common.{lit≤, refl};
    ghost use Rattle.tmem_builtins.specs.Builtins.{three_small};

    ghost few = { λ _. lit≤ tt };

    ghost small = { λ _. three_small };

    ghost has_meanings = { λ _. ∣ (player_answer, λ _ _. refl) ∣₁ };
}
