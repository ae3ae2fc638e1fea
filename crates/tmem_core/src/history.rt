// What was committed since a core was made. It takes no memory: its values are seen by clauses alone.
ghost use Rattle.std.specs.Prelude.{◌≡◌, [], ◌∷◌, ◌++◌};

use std::snapshot::Snapshot;
use tmem_effect::Effect;

/// The committed effects, each as it was when it was committed.
#[derive(Drop)]
pub(crate) enum History {
    Start,
    After(Snapshot<Effect>, Snapshot<History>),
}

impl History {
    ghost use Rattle.tmem_core.specs.History.{effects_of};

    /// One effect more.
    pub(crate) fn with(before: &History, effect: &Effect) -> History
        ensures { effects_of result ≡ effects_of before.now ++ effect.now ∷ [] }
    {
        History::After(Snapshot::of(effect), Snapshot::of(before))
    }
}
