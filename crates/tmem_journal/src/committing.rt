// What a batch makes of a state.
ghost use Rattle.std.specs.Prelude.{◌≡◌, ◌<◌, length, All};
ghost use Rattle.tmem_effect.specs.State.{fold, StaysWithin};

use tmem_effect::Effect;
use tmem_state::State;

/// Commits effects one after another. The state is within the limits of counts and names after each of them.
pub(crate) fn commit_all(state: &mut State, effects: &[Effect])
    requires variables { All (λ e. All (λ w. w.0 < length state.old.values) e.writes) effects.now }
    requires within { StaysWithin state.old effects.now }
    ensures { state.new ≡ fold state.old effects.now }
{
    for effect in effects {
        state.commit(effect);
    }
}
