//! A table of one invariant that is always true, and the steps that add and that need a number: what a test uses that needs no
//! closure. Each method of theirs can be called, which it could not where there were none.
ghost use Rattle.std.specs.Prelude.{◌≡◌, ◌∷◌, [], ℕ, ℤ, List, true, codes};

use super::signals::Signals;
use tmem_builtins::{add, need};
use tmem_fault::Name;
use tmem_invariants::Invariants;
use tmem_tree::{StepAnswer, StoredSteps};

/// The name of that invariant.
const ALWAYS: &str = "always";

/// The same.
pub(super) fn always() -> Name
    ensures { result ≡ codes "always" }
{
    Name::new(ALWAYS).unwrap()
}

/// One invariant that is always true, over none of so many variables.
#[derive(Drop)]
pub(super) struct AlwaysTrue {
    pub vars: u16,
}

impl Invariants for AlwaysTrue {
    ghost names = { λ _. codes "always" ∷ [] };

    ghost footprints = { λ _. [] ∷ [] };

    ghost vars = { λ table. table.vars };

    ghost is_stated = { λ _ m. (m.footprint (codes "always") ≡ []) × ((values : List ℤ) → m.test (codes "always") values ≡ true) };

    fn len(&self) -> usize {
        1
    }

    fn vars(&self) -> u16 {
        self.vars
    }

    fn name(&self, _index: usize) -> Name {
        always()
    }

    fn footprint(&self, _index: usize) -> &[u16] {
        &[]
    }

    fn answer(&self, _index: usize, _values: &[i64]) -> bool {
        true
    }

    fn index_of(&self, name: &Name) -> Option<usize> {
        if ALWAYS == name.as_str() {
            Some(0)
        } else {
            None
        }
    }

    fn missing(&self, registered: &[Name]) -> Option<Name> {
        for name in registered {
            if ALWAYS != name.as_str() {
                return Some(*name);
            }
        }
        None
    }

    fn is_touched(&self, _registered: u64, _written: &[(u16, i64)]) -> bool {
        false
    }

    fn test_all(&self, _values: &[i64], _registered: u64, _proposed: u64) -> Option<usize> {
        None
    }

    fn test_touched(
        &self,
        _values: &[i64],
        _registered: u64,
        _proposed: u64,
        _written: &[(u16, i64)],
    ) -> Option<usize> {
        None
    }

    ghost use Rattle.std.proofs.Common.{◌<◌, ◌≤◌, length, ap, lit≤, refl};
    ghost use Rattle.std.proofs.lemmas.List.Elements.{All-cons, All-nil};
    ghost use Rattle.tmem_invariants.specs.TableNames.{AreBelow};
    ghost use Rattle.tmem_store_tests.specs.Examples.{all_true, alone};

    ghost few = { λ _. lit≤ tt };

    ghost over = { λ _ m stated. ap (λ footprint. footprint ∷ []) stated.0 };

    ghost within = { λ table. All-cons (AreBelow table.vars) [] [] (All-nil (λ var. var < table.vars)) (All-nil (AreBelow table.vars)) };

    ghost short = { λ _. All-cons (λ footprint. length footprint ≤ 16) [] [] (lit≤ tt) (All-nil (λ footprint. length footprint ≤ 16)) };

    ghost distinct = { λ _. alone (codes "always") };

    ghost has_meanings = { λ _. ∣ (all_true, (refl, λ _. refl)) ∣₁ };
}

/// Two stored steps: the first adds two numbers, the second retries until the first number is at least the second. The first one
/// can be held, and how often the second one is called is counted.
#[derive(Drop)]
pub(super) struct AddsAndNeeds<'a> {
    pub(super) signals: &'a Signals,
}

impl<'a> StoredSteps for AddsAndNeeds<'a> {
    ghost use Rattle.tmem_store_tests.specs.Examples.{adds_and_needs};

    ghost arities = { λ _. 2 ∷ 2 ∷ [] };

    ghost is_stated = { λ _ m. (index : ℕ) (args : List ℤ) → m index args ≡ adds_and_needs index args };

    fn len(&self) -> usize {
        2
    }

    fn arity(&self, _index: usize) -> usize {
        2
    }

    fn answer(&self, index: usize, args: &[i64]) -> StepAnswer {
        if index == 0 {
            self.signals.meet_step();
            add(args)
        } else {
            self.signals.count_need();
            need(args)
        }
    }

    ghost use Rattle.std.proofs.Common.{lit≤, refl};
    ghost use Rattle.tmem_store_tests.specs.Examples.{two_small};

    ghost few = { λ _. lit≤ tt };

    ghost small = { λ _. two_small };

    ghost has_meanings = { λ _. ∣ (adds_and_needs, λ _ _. refl) ∣₁ };
}
