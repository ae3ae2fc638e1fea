// What follows from the rule.
ghost use Rattle.std.specs.Prelude.{◌≡◌, ◌≢◌, ℕ};
ghost use mathlib.Core.Option.{some};
ghost use lib.ListN.{get_elem?};
ghost use Rattle.atomic_table.specs.Table.{State};
ghost use Rattle.tmem_effect.specs.declared.effect.Effect.{Effect};
ghost use Rattle.tmem_spine.specs.declared.view.Role.TheVariants as role;
ghost use Rattle.tmem_spine.specs.declared.view.SeatView.{SeatView as ViewOf};
ghost use Rattle.tmem_spine.specs.History.{Has};
ghost use Rattle.tmem_spine.specs.Rule.{KeepsHistory};

/// No number stands among the own effects of two passes.
pub fn no_number_twice()
    ensures { (start : ℕ) (s : State ℕ ViewOf) (i j : ℕ) (v w : ViewOf) (n : ℕ) (e f : Effect) → KeepsHistory start s
        → get_elem? s.views i ≡ some v → get_elem? s.views j ≡ some w → v.role ≡ role.Pass → w.role ≡ role.Pass
        → Has v.own n e → Has w.own n f → i ≡ j }
{}
