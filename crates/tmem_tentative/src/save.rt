// What a choice goes back to.

ghost use Rattle.std.specs.Prelude.{◌≡◌};
ghost use Rattle.tmem_tentative.specs.Stages.{no_save};

use tmem_effect::Effect;
use tmem_tree::REGISTERS;

/// The registers and the effect of a run, as a choice found them.
#[derive(Drop)]
pub(crate) struct Save {
    pub registers: [i64; REGISTERS],
    pub effect: Effect,
}

impl Save {
    // A save that nothing was put into yet.
    pub(crate) fn new() -> Save
        ensures { result ≡ no_save }
    {
        Save {
            registers: [0; REGISTERS],
            effect: Effect::new(),
        }
    }
}
