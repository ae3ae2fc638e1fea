// What a caller of a front keeps.
ghost use Rattle.std.specs.Prelude.{◌≡◌};
ghost use Rattle.tmem_effect.specs.Prefix.{IsPrefix};
ghost use Rattle.tmem_spine.specs.History.{count};
ghost use Rattle.tmem_spine.specs.Rule.{Owns};

use std::marker::Model;
use tmem_spine::{Naming, PassSide};
use tmem_tentative::Cursor;

/// A caller's seat, and the memory of its last attempt, which the next one takes again. Contracts see what the seat
/// knows: its mark, what is committed and what is durable as far as it knows, and its own effects. It may go to another
/// thread, and is used with the front that gave it. The fields are for that front: a caller whose pass has another number may not be
/// woken, and one whose `is_pooled` was changed may be refused a pass.
pub struct Pass<N: Naming> {
    /// Its seat of the spine.
    pub seat: PassSide<N>,
    /// The memory of its last attempt.
    pub cursor: Cursor,
    /// How many the front gave out before it.
    pub number: u64,
    /// Whether the pool of the front has it.
    pub is_pooled: bool,
}

// By hand, so that a function that drops one makes one call.
impl<N: Naming> Drop for Pass<N> {
    fn drop(self) {
        let Pass {
            seat: _seat,
            cursor: _cursor,
            number: _number,
            is_pooled: _is_pooled,
        } = self;
    }
}

impl<N: Naming> Model for Pass<N> {
    ghost use Rattle.tmem_spine.specs.Views.{PassRoleView};

    ghost Value = { PassRoleView };

    ghost view = { λ p. p.seat };
}

impl<N: Naming> Pass<N> {
    /// The greatest answer that a look of this pass gave, and the opening count before any. What a pass saw begins what
    /// it knows, and its own effects stand there, at their numbers and under its mark.
    pub fn seen(&self) -> u64
        ensures seen { result ≡ count N.name.start self.now.seen }
        ensures begins { IsPrefix self.now.seen self.now.known }
        ensures owns { Owns N.name.start self.now.mark self.now.known self.now.own }
    {
        self.seat.seen()
    }
}
