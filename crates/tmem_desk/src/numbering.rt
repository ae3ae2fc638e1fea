// Plans with other numbers.
ghost use Rattle.std.specs.Prelude.{◌≡◌, ◌≤◌, ◌++◌, ℕ, List, length, drop};
ghost use Rattle.tmem_tree.specs.Numbers.{numbers as numbers_of};
ghost use Rattle.tmem_tree.specs.Plans.{FitsSteps, FitsVariables, FitsNames};
ghost use Rattle.tmem_desk.specs.Leading.{first_puts};
ghost use Rattle.tmem_desk.specs.Numbering.{with_numbers};

use tmem_tree::Plan;

/// The first `Put`s of a plan take these numbers, in the order in which they stand. A number for which there is no `Put` is left out.
/// Nothing else changes.
pub(crate) fn set_numbers(plan: &mut Plan, numbers: &[i64])
    ensures tree { plan.new.tree ≡ with_numbers numbers.now plan.old.tree }
    ensures numbers { length numbers.now ≤ first_puts plan.old.tree → numbers_of plan.new.tree ≡ numbers.now ++ drop (length numbers.now) (numbers_of plan.old.tree) }
    ensures signatures { plan.new.signatures ≡ plan.old.signatures }
    ensures steps { (arities : List ℕ) → FitsSteps arities plan.old.tree → FitsSteps arities plan.new.tree }
    ensures variables { (vars : ℕ) → FitsVariables vars plan.old → FitsVariables vars plan.new }
    ensures names { (names : List (List ℕ)) → FitsNames names plan.old.tree → FitsNames names plan.new.tree }
{
    for (index, number) in numbers.iter().enumerate() {
        let _ = plan.set_number(index, *number);
    }
}
